// The store: two slots of a count and its check, one of which is written while the other counts.
ghost use Rattle.std.specs.Prelude.{◌≡◌, ◌-◌, ◌<◌, [], true, ⊤, is_ok, OnOk};
ghost use Rattle.keys.specs.Refusals.{Unless};
ghost use Rattle.counter.specs.Answers.{store_refusal, key_refusal};
ghost use Rattle.counter.specs.Reserving.{ForPower, Written, InStep};
ghost use Rattle.counter.specs.Store.{check, slot_ok, written, next, sound};

use crate::cells::{Cells, NotWritten};
use keys::Refusal;
use tree::key_count;

// The modulus of the rule for checks.
const MODULUS: u64 = 4_294_967_291;

// The check of a count.
fn check_of(count: u32) -> u32
    ensures { result ≡ check count }
{
    ((7 * u64::from(count) + 3) % MODULUS) as u32
}

// Whether a slot's check fits. Slots are told by number and lie flat, as the cells have them.
fn slot_is_right(cells: &[u32; 4], slot: usize) -> bool
    requires { slot < 2 }
    ensures { result ≡ slot_ok cells.now slot }
{
    cells[2 * slot + 1] == check_of(cells[2 * slot])
}

// What stood in a store when it was read. It is sound: a key can be taken from it.
#[derive(Clone, Copy)]
pub(crate) struct Store {
    cells: [u32; 4],
    ghost is_sound: { sound cells ≡ true },
}

impl TryFrom<&[u32]> for Store {
    type Error = Refusal;

    ghost try_from_gives = { λ lent r. Unless (store_refusal lent.now) r (λ s. s.cells ≡ lent.now) };

    fn try_from(lent: &[u32]) -> Result<Self, Refusal> {
        let Ok(cells) = <[u32; 4]>::try_from(lent) else {
            return Err(Refusal::Store(lent.len() as u64));
        };
        if slot_is_right(&cells, 0) || slot_is_right(&cells, 1) {
            Ok(Store { cells })
        } else {
            Err(Refusal::Store(0))
        }
    }
}

impl Store {
    // The slot that is written next.
    fn slot_to_write(&self) -> usize
        ensures is { result ≡ written self.now.cells }
        ensures small { result < 2 }
    {
        if !slot_is_right(&self.cells, 0) {
            0
        } else if !slot_is_right(&self.cells, 1) {
            1
        } else if self.cells[0] <= self.cells[2] {
            0
        } else {
            1
        }
    }

    // The slot that counts: the one that is not written next.
    pub(crate) fn slot_that_counts(&self) -> usize
        ensures is { result ≡ 1 - written self.now.cells }
        ensures small { result < 2 }
    {
        1 - self.slot_to_write()
    }

    // The next key: the count in the slot that counts.
    pub(crate) fn next_key(&self) -> u32
        ensures { result ≡ next self.now.cells }
    {
        self.cells[2 * self.slot_that_counts()]
    }

    // A next key above the number of keys is refused; the one that equals it is not, since all keys were given then.
    pub(crate) fn refuse_key(&self, levels: u64) -> Result<(), Refusal>
        ensures { Unless (key_refusal (next self.now.cells) levels) result (λ _. ⊤) }
    {
        let key = u64::from(self.next_key());
        match key_count(levels) {
            Some(count) if key > count => Err(Refusal::NextKey(key)),
            _ => Ok(()),
        }
    }

    // Reserves the next key in the cells that this was read from: writes one more than it in the slot that is written next, first the count, then its check.
    pub(crate) fn reserve<C: Cells>(&self, cells: &mut C) -> Result<(), NotWritten>
        requires read { C.held cells.old ≡ self.now.cells }
        requires small { next self.now.cells < 4294967295 }
        ensures written { ForPower C.sure (C.lasts cells.old) (Written (C.held cells.old) (is_ok result) (C.writes cells.old) (C.writes cells.new) (C.held cells.new)) }
        ensures in_step { InStep (C.disk cells.old) (C.held cells.old) → InStep (C.disk cells.new) (C.held cells.new) }
        ensures acknowledged { OnOk result (((C.disk cells.old).pending ≡ []) × ((C.disk cells.new).pending ≡ [])) }
        ensures loans { C.loans cells.new ≡ C.loans cells.old }
    {
        let count = self.next_key() + 1;
        let place = 2 * self.slot_to_write();
        cells.write(place, count)?;
        cells.write(place + 1, check_of(count))
    }
}
