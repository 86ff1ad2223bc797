// What keeps the writes to a store's cells beyond the process that makes them.
ghost use Rattle.std.specs.Prelude.{◌≡◌, Bool, true, false, [], refl, IsOk, is_ok};
ghost use Rattle.counter.specs.Cells.{DiskState, still, Kept};

use crate::cells::NotWritten;

pub trait Keeper {
    // Whether the store is in memory alone, where it may be replaced.
    const IN_MEMORY: bool;

    ghost IN_MEMORY: { Bool };

    // Whether nothing but power keeps a write from being made: so it is in memory, and on a disk of which no call fails.
    ghost sure: { Bool };

    // What is known of the disk that the store lies on.
    ghost state: { Self → DiskState };

    // Keeps one number in its place. Where this fails, nothing more is kept.
    fn keep(&mut self, place: usize, value: u32) -> Result<(), NotWritten>
        ensures sure { sure ≡ true → IsOk result }
        ensures disk { IN_MEMORY ≡ false → Kept (is_ok result) place value (state self.old) (state self.new) };

    ghost memory_is_sure: { IN_MEMORY ≡ true → sure ≡ true };
}

// A store in memory alone, of which nothing is kept.
#[derive(Drop)]
pub struct InMemory;

impl Keeper for InMemory {
    const IN_MEMORY: bool = true;

    ghost IN_MEMORY = { true };

    ghost sure = { true };

    ghost state = { λ _. still [] };

    fn keep(&mut self, _place: usize, _value: u32) -> Result<(), NotWritten> {
        Ok(())
    }

    ghost memory_is_sure = { λ _. refl };
}
