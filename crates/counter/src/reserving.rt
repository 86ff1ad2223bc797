// Asking a store for a key, and the slot that counts.
ghost use Rattle.std.specs.Prelude.{◌≡◌, ⊤};
ghost use Rattle.keys.specs.Refusals.{Unless};
ghost use Rattle.counter.specs.Answers.{reserve_refusal, reserve_answer, reserve_stored};
ghost use Rattle.counter.specs.Reserving.{ForPower, Asked, Counts, InStep, Acknowledged};
ghost use Rattle.counter.specs.Store.{counting};

use crate::answer::Done;
use crate::cells::Cells;
use crate::keeper::InMemory;
use crate::lent::LentCells;
use crate::store::Store;
use keys::{Refusal, Signer};
use tree::in_tree;

// The store that numbers are, or the first refusal that applies to asking it for a key of a tree of so many levels.
fn admit(levels: u64, numbers: &[u32]) -> Result<Store, Refusal>
    ensures { Unless (reserve_refusal levels numbers.now) result (λ s. s.cells ≡ numbers.now) }
{
    Signer::refuse_levels(levels)?;
    let store = Store::try_from(numbers)?;
    store.refuse_key(levels)?;
    Ok(store)
}

// The first refusal that applies to asking a store for a key, if one does.
pub fn refuse_store(levels: u64, numbers: &[u32]) -> Result<(), Refusal>
    ensures { Unless (reserve_refusal levels numbers.now) result (λ _. ⊤) }
{
    admit(levels, numbers)?;
    Ok(())
}

// Reserves the next key of a tree of so many levels in a store's cells.
pub fn reserve_in<C: Cells>(levels: u64, cells: &mut C) -> Done
    ensures asked { ForPower C.sure (C.lasts cells.old) (Asked (reserve_refusal levels (C.held cells.old)) levels (C.held cells.old) result (C.writes cells.old) (C.writes cells.new) (C.held cells.new)) }
    ensures counts { Counts (C.held cells.old) result (C.held cells.new) }
    ensures in_step { InStep (C.disk cells.old) (C.held cells.old) → InStep (C.disk cells.new) (C.held cells.new) }
    ensures acknowledged { Acknowledged result (C.disk cells.old) (C.disk cells.new) }
    ensures loans { C.loans cells.new ≡ C.loans cells.old }
{
    // No `?`, since here a refusal is one of the answers.
    let store = match admit(levels, cells.numbers()) {
        Ok(store) => store,
        Err(refusal) => return Done::Refused(refusal),
    };
    let key = u64::from(store.next_key());
    if !in_tree(key, levels) {
        return Done::Empty;
    }
    match store.reserve(cells) {
        Ok(()) => Done::Key(key),
        Err(_) => Done::Cut,
    }
}

// The same in a lent slice, with power for so many writes.
pub fn reserve(levels: u64, store: &mut [u32], lasts: u64) -> Done
    ensures answer { result ≡ reserve_answer levels store.old lasts }
    ensures store { store.new ≡ reserve_stored levels store.old lasts }
    ensures counts { Counts store.old result store.new }
{
    reserve_in(levels, &mut LentCells::new(store, lasts, &mut InMemory))
}

// The slot that counts, as a part of the store; a part of none where the store is not sound.
pub fn slot<'a>(store: &'a [u32]) -> &'a [u32]
    ensures { result.now ≡ counting store.now }
{
    match Store::try_from(store) {
        Ok(read) => {
            let place = 2 * read.slot_that_counts();
            &store[place..place + 2]
        }
        Err(_) => &store[..0],
    }
}
