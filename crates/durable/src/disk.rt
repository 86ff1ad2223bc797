// A disk that a store lies on, by what it is asked.
ghost use Rattle.std.specs.Prelude.{◌≡◌, Bool, true, ◌⊎◌, is_ok, IsOk, OnOk};
ghost use Rattle.counter.specs.Cells.{DiskState};
ghost use Rattle.durable.specs.Disks.{with_pending, synced_if};

use counter::NotWritten;

pub trait Disk {
    // What it holds for certain, and which writes it was asked for since.
    ghost state: { Self → DiskState };

    // Whether no call of it fails.
    ghost sure: { Bool };

    // The numbers that it holds for certain.
    fn numbers(&self) -> &[u32]
        ensures { result.now ≡ (state self.now).settled };

    // Asks for one number in its place. Whether it is there is known only after `sync`, and not at all where this fails.
    fn put(&mut self, place: usize, value: u32) -> Result<(), NotWritten>
        ensures asked { OnOk result (state self.new ≡ with_pending (state self.old) place value) }
        ensures sure { sure ≡ true → IsOk result }
        ensures or_not { (state self.new ≡ state self.old) ⊎ (state self.new ≡ with_pending (state self.old) place value) };

    // Makes all that was asked for durable.
    fn sync(&mut self) -> Result<(), NotWritten>
        ensures sure { sure ≡ true → IsOk result }
        ensures synced { state self.new ≡ synced_if (is_ok result) (state self.old) };
}
