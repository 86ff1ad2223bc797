// A store's cells, as the device that holds them: each number is written at once, and power may fail before a write.
ghost use Rattle.std.specs.Prelude.{◌≡◌, ℕ, ◌<◌, Bool, true, List, ◌++◌, length, is_ok, nat_lt, OnOk};
ghost use Rattle.std.specs.Borrow.{GName};
ghost use Rattle.counter.specs.Cells.{left_by, made_if, lasts_behind, DiskState, Kept};
ghost use Rattle.counter.specs.declared.write.Write.{Write};

// A number was not written: power failed before it, or there is no such cell.
#[derive(Clone, Copy)]
pub struct NotWritten;

pub trait Cells {
    // Whether nothing but power keeps a write from being made.
    ghost sure: { Bool };

    // The numbers that the cells hold.
    ghost held: { Self → List ℕ };

    // The writes that were made to them, in order.
    ghost writes: { Self → List Write };

    // For how many more writes power lasts, at most.
    ghost lasts: { Self → ℕ };

    // What whoever reads the cells anew, once this device is gone, may find: they lie on a disk, or in memory that lasts.
    ghost disk: { Self → DiskState };

    // Which cells they are: of lent ones the names that proofs give to the loans, which must stay for the lender to see the writes.
    ghost loans: { Self → List GName };

    fn numbers(&self) -> &[u32]
        ensures { result.now ≡ held self.now };

    // Writes one number, or nothing.
    fn write(&mut self, place: usize, value: u32) -> Result<(), NotWritten>
        ensures held { held self.new ≡ left_by (made_if (is_ok result) place value) (held self.old) }
        ensures there { OnOk result (place < length (held self.old)) }
        ensures writes { writes self.new ≡ writes self.old ++ made_if (is_ok result) place value }
        ensures made { sure ≡ true → place < length (held self.old) → is_ok result ≡ nat_lt 0 (lasts self.old) }
        ensures few { OnOk result (0 < lasts self.old) }
        ensures lasts { lasts self.new ≡ lasts_behind (is_ok result) (lasts self.old) }
        ensures disk { Kept (is_ok result) place value (disk self.old) (disk self.new) }
        ensures loans { loans self.new ≡ loans self.old };
}
