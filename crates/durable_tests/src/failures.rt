// One request over a disk of which each call fails in turn, in each way: what is answered, what the disk was asked, and what a reader finds that begins anew.
use crate::disk::{Call, Failure, Memory, SimulatedDisk};
use counter::{Done, Keeper, LentCells, reserve, reserve_in, slot};
use durable::OnDisk;
use std::alloc::Global;
use std::process::Abort;

// Three levels have keys for each of the stores.
const LEVELS: u64 = 3;

// Two slots that are right, in each order; one that is spoiled, the first and the second; and two with the same count.
const STORES: &'static [[u32; 4]] = &[
    [0, 3, 0, 3],
    [1, 10, 0, 3],
    [4, 31, 5, 38],
    [6, 31, 5, 38],
    [4, 31, 5, 39],
    [5, 38, 5, 38],
];

// A sync begins, and makes durable what was asked for before; then each of two numbers is put and made durable.
const FAILURES: &'static [(Option<usize>, bool)] = &[
    (None, false),
    (Some(0), false),
    (Some(1), false),
    (Some(1), true),
    (Some(2), false),
    (Some(3), false),
    (Some(3), true),
    (Some(4), false),
];

// What is answered where the disk can be opened.
fn ask(memory: &mut Memory, store: &mut [u32; 4], lasts: u64) -> Option<Done> {
    match OnDisk::new(SimulatedDisk { memory }) {
        Ok(mut keeper) => {
            Some(reserve_in(LEVELS, &mut LentCells::new(store, lasts, &mut keeper)))
        }
        Err(_) => None,
    }
}

// How many numbers were made durable before a call failed.
fn kept(failure: Failure) -> u64 {
    match failure.call {
        None => 2,
        Some(call) => call.saturating_sub(1) as u64 / 2,
    }
}

// The calls of a request of which none fails: the slot that counts behind it is the one that it writes.
fn all_calls(store: [u32; 4]) -> [Call; 5] {
    let mut after = store;
    reserve(LEVELS, &mut after, 2);
    let [a, b, c, d] = after;
    let (place, count, check) = if slot(&after).first_chunk::<2>() == Some(&[a, b]) {
        (0, a, b)
    } else {
        (2, c, d)
    };
    [
        Call::Sync,
        Call::Put(place, count),
        Call::Sync,
        Call::Put(place + 1, check),
        Call::Sync,
    ]
}

// Nothing is asked behind the call that fails.
fn compare_calls(rt: &impl Abort, store: [u32; 4], failure: Failure, calls: &[Call]) {
    let all = all_calls(store);
    let count = failure
        .call
        .map_or(all.len(), |call| call.saturating_add(1));
    assert_eq!(rt; Some(calls), all.get(..count), "{store:?} with {failure:?}");
}

// Whoever reads the numbers anew is given the next key, if it was given; and else that key or the next one.
fn compare_reader(
    rt: &impl Abort,
    heap: Global,
    before: Option<Done>,
    found: [u32; 4],
    given: bool,
) {
    let mut store = found;
    let answer = ask(
        &mut Memory::holding(heap, found, Failure::NONE),
        &mut store,
        u64::MAX,
    );
    let follows = match (before, answer) {
        (Some(Done::Key(key)), Some(Done::Key(next))) => {
            next == key.wrapping_add(1) || (!given && next == key)
        }
        _ => false,
    };
    assert!(rt;
        follows,
        "{answer:?} is answered at {found:?}, after {before:?} (given: {given})"
    );
}

fn compare_failure(rt: &impl Abort, heap: Global, store: [u32; 4], failure: Failure) {
    let mut memory = Memory::holding(heap, store, failure);
    let mut left = store;
    let answer = ask(&mut memory, &mut left, u64::MAX);
    // as in memory with power for the numbers that were made durable
    let mut stored = store;
    let done = reserve(LEVELS, &mut stored, kept(failure));
    let opened = if failure.call == Some(0) {
        None
    } else {
        Some(done)
    };
    assert_eq!(rt;
        (answer, left),
        (opened, stored),
        "{store:?} with {failure:?}"
    );
    let given = failure.call.is_none();
    assert_eq!(rt;
        matches!(answer, Some(Done::Key(_))),
        given,
        "{store:?} with {failure:?}"
    );
    compare_calls(rt, store, failure, memory.calls());
    let mut whole = store;
    let key = Some(reserve(LEVELS, &mut whole, 2));
    compare_reader(rt, heap, key, memory.found(false), given);
    compare_reader(rt, heap, key, memory.found(true), given);
}

fn compare_failures(rt: &impl Abort, heap: Global, store: [u32; 4]) {
    for (call, waits) in FAILURES {
        let failure = Failure {
            call: *call,
            waits: *waits,
        };
        compare_failure(rt, heap, store, failure);
    }
}

#[test]
fn every_call_fails(rt: HostRuntime) {
    for store in STORES {
        compare_failures(&rt, rt.alloc(), *store);
    }
}

// A keeper that failed keeps no number, and so gives no key, for whichever store.
fn compare_failed(rt: &impl Abort, keeper: &mut OnDisk<SimulatedDisk<'_>>) {
    for store in STORES {
        let mut left = *store;
        let done = reserve_in(LEVELS, &mut LentCells::new(&mut left, u64::MAX, keeper));
        assert_eq!(rt; (done, left), (Done::Cut, *store));
        assert!(rt; keeper.keep(0, 3).is_err());
    }
}

fn compare_after(rt: &impl Abort, heap: Global, store: [u32; 4], call: usize, waits: bool) {
    let failure = Failure {
        call: Some(call),
        waits,
    };
    let mut memory = Memory::holding(heap, store, failure);
    let mut left = store;
    if let Ok(mut keeper) = OnDisk::new(SimulatedDisk {
        memory: &mut memory,
    }) {
        reserve_in(
            LEVELS,
            &mut LentCells::new(&mut left, u64::MAX, &mut keeper),
        );
        compare_failed(rt, &mut keeper);
    }
    assert_eq!(rt;
        memory.calls().len(),
        call.saturating_add(1),
        "{store:?} with {failure:?}"
    );
}

fn compare_closed(rt: &impl Abort, heap: Global, store: [u32; 4]) {
    for (call, waits) in FAILURES {
        if let Some(call) = call {
            compare_after(rt, heap, store, *call, *waits);
        }
    }
}

#[test]
fn nothing_is_asked_after_a_failure(rt: HostRuntime) {
    for store in STORES {
        compare_closed(&rt, rt.alloc(), *store);
    }
}

// A disk that does not fail holds what is left in memory.
fn compare_power(rt: &impl Abort, heap: Global, store: [u32; 4], lasts: u64) {
    let mut memory = Memory::holding(heap, store, Failure::NONE);
    let mut left = store;
    let answer = ask(&mut memory, &mut left, lasts);
    let mut stored = store;
    let done = reserve(LEVELS, &mut stored, lasts);
    assert_eq!(rt;
        (answer, left, memory.found(false), memory.found(true)),
        (Some(done), stored, stored, stored),
        "{store:?} with power for {lasts}"
    );
}

#[test]
fn power_as_in_memory(rt: HostRuntime) {
    for store in STORES {
        for lasts in 0..4 {
            compare_power(&rt, rt.alloc(), *store, lasts);
        }
    }
}
