// Many requests while the disk fails, and a reader that begins anew each time: no key comes twice.
use crate::disk::{Failure, Memory, SimulatedDisk};
use counter::{Done, LentCells, reserve_in};
use durable::OnDisk;
use std::process::Abort;

// A random number from a state, and the next state: Knuth's multiplier, of which the high bits are taken.
fn random(state: u64) -> (u64, u64) {
    let next = state
        .wrapping_mul(6_364_136_223_846_793_005)
        .wrapping_add(1_442_695_040_888_963_407);
    (next >> 33, next)
}

// The last key that was given, how many were, and how many lives of a keeper ended in a failure.
#[derive(Clone, Copy)]
struct Tally {
    last: Option<u64>,
    keys: u32,
    failures: u32,
}

// Asks until a call fails, or often enough.
fn live(rt: &impl Abort, memory: &mut Memory, store: &mut [u32; 4], tally: &mut Tally) {
    if let Ok(mut keeper) = OnDisk::new(SimulatedDisk { memory }) {
        for _ in 0..16 {
            match reserve_in(20, &mut LentCells::new(store, u64::MAX, &mut keeper)) {
                Done::Key(key) => {
                    assert!(rt;
                        tally.last < Some(key),
                        "key {key} came after {:?}",
                        tally.last
                    );
                    tally.last = Some(key);
                    tally.keys = tally.keys.saturating_add(1);
                }
                _ => {
                    tally.failures = tally.failures.saturating_add(1);
                    return;
                }
            }
        }
    }
}

#[test]
fn no_key_comes_twice(rt: HostRuntime) {
    let mut store = [0, 3, 0, 3];
    let mut tally = Tally {
        last: None,
        keys: 0,
        failures: 0,
    };
    let mut state = 2026;
    for _ in 0..4_000 {
        let (call, after) = random(state);
        let (ways, after) = random(after);
        state = after;
        // of 65 calls, and some more that never come
        let failure = Failure {
            call: Some((call % 80) as usize),
            waits: ways % 2 == 0,
        };
        let mut memory = Memory::holding(rt.alloc(), store, failure);
        live(&rt, &mut memory, &mut store, &mut tally);
        store = memory.found(ways / 2 % 2 == 0);
    }
    assert!(rt; tally.keys > 10_000, "{} keys", tally.keys);
    assert!(rt; tally.failures > 1_000, "{} failures", tally.failures);
}
