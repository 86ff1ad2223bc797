// The writes that were made, for proofs alone: it takes no memory, and its functions do nothing when they run.
ghost use Rattle.std.specs.Prelude.{◌≡◌, List, [], ◌∷◌, ◌++◌};
ghost use Rattle.std.specs.Borrow.{ftrue};
ghost use Rattle.counter.specs.declared.write.Write.{Write as OneWrite};

use crate::write::Write;
use std::marker::Model;

#[derive(Drop)]
pub struct History {
    pub ghost writes: { List OneWrite },
}

impl Model for History {
    ghost also_owns = { λ _. ftrue };
}

impl History {
    pub fn new() -> History
        ensures { result.writes ≡ [] }
    {
        History {}
    }

    // The same with one more write behind it.
    pub fn then(&self, _write: &Write) -> History
        ensures { result.writes ≡ self.now.writes ++ _write.now ∷ [] }
    {
        History {}
    }
}
