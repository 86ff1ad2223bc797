// The rule for a store as a table, and every small store compared with it.
use counter::{Done, reserve, slot};
use keys::Refusal;
use std::cmp::Ordering;
use std::process::Abort;

// The checks of the counts 0 to 9.
const CHECKS: &'static [u32] = &[3, 10, 17, 24, 31, 38, 45, 52, 59, 66];

// How many keys a tree of 0 to 4 levels has.
const KEYS: &'static [u64] = &[1, 2, 4, 8, 16];

fn check_of(count: u32) -> u32 {
    CHECKS.get(count as usize).copied().unwrap_or(0)
}

// A slot: its count, and whether its check fits.
#[derive(Clone, Copy)]
struct Slot {
    count: u32,
    right: bool,
}

impl Slot {
    fn check(self) -> u32 {
        check_of(self.count) ^ u32::from(!self.right)
    }
}

// What stands in a store after no write, one and two; the slot that counts; and its key.
#[derive(Drop)]
struct Row {
    stores: [[u32; 4]; 3],
    counts: [u32; 2],
    key: u32,
}

// The second slot counts, and the first is written.
fn first_written(a: Slot, b: Slot) -> Row {
    let next = b.count.saturating_add(1);
    let second = [b.count, b.check()];
    Row {
        stores: [
            [a.count, a.check(), second[0], second[1]],
            [next, a.check(), second[0], second[1]],
            [next, check_of(next), second[0], second[1]],
        ],
        counts: second,
        key: b.count,
    }
}

// The first slot counts, and the second is written.
fn second_written(a: Slot, b: Slot) -> Row {
    let next = a.count.saturating_add(1);
    let first = [a.count, a.check()];
    Row {
        stores: [
            [first[0], first[1], b.count, b.check()],
            [first[0], first[1], next, b.check()],
            [first[0], first[1], next, check_of(next)],
        ],
        counts: first,
        key: a.count,
    }
}

// The table: which slot is written, by which are right and how the counts compare.
fn row_for(a: Slot, b: Slot) -> Option<Row> {
    match (a.right, b.right, a.count.cmp(&b.count)) {
        (true, true, Ordering::Less) => Some(first_written(a, b)),
        (true, true, Ordering::Equal) => Some(first_written(a, b)),
        (true, true, Ordering::Greater) => Some(second_written(a, b)),
        (false, true, _) => Some(first_written(a, b)),
        (true, false, _) => Some(second_written(a, b)),
        (false, false, _) => None,
    }
}

// What is answered, and how many writes are made, by the key, how many there are, and for how many writes power lasts.
fn outcome(key: u64, keys: u64, lasts: u64) -> (Done, usize) {
    match (key.cmp(&keys), lasts) {
        (Ordering::Greater, _) => (Done::Refused(Refusal::NextKey(key)), 0),
        (Ordering::Equal, _) => (Done::Empty, 0),
        (Ordering::Less, 0) => (Done::Cut, 0),
        (Ordering::Less, 1) => (Done::Cut, 1),
        (Ordering::Less, _) => (Done::Key(key), 2),
    }
}

// The slot that counts, what is answered, and what is left of a store.
fn expected(a: Slot, b: Slot, keys: u64, lasts: u64) -> (Option<[u32; 2]>, Done, Option<[u32; 4]>) {
    match row_for(a, b) {
        None => (
            None,
            Done::Refused(Refusal::Store(0)),
            Some([a.count, a.check(), b.count, b.check()]),
        ),
        Some(row) => {
            let (done, writes) = outcome(u64::from(row.key), keys, lasts);
            (Some(row.counts), done, row.stores.get(writes).copied())
        }
    }
}

fn compare(rt: &impl Abort, a: Slot, b: Slot, levels: u64, keys: u64, lasts: u64) {
    let before = [a.count, a.check(), b.count, b.check()];
    let mut store = before;
    let counts = slot(&before).first_chunk::<2>().copied();
    let done = reserve(levels, &mut store, lasts);
    assert_eq!(rt;
        (counts, done, Some(store)),
        expected(a, b, keys, lasts),
        "{before:?} with power for {lasts}"
    );
}

#[test]
fn every_small_store(rt: HostRuntime) {
    for (levels, keys) in KEYS.iter().enumerate() {
        for number in 0..9 * 9 * 2 * 2 * 4 {
            let lasts = number % 4;
            let a = Slot {
                count: number / 16 % 9,
                right: number / 4 % 2 == 0,
            };
            let b = Slot {
                count: number / 144,
                right: number / 8 % 2 == 0,
            };
            compare(&rt, a, b, levels as u64, *keys, u64::from(lasts));
        }
    }
}
