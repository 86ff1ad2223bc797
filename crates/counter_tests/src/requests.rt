// Many requests to one store, at any levels, while power fails: no key comes twice.
use counter::{Done, reserve};
use std::process::Abort;

// A random number from a state, and the next state: Knuth's multiplier, of which the high bits are taken.
fn random(state: u64) -> (u64, u64) {
    let next = state
        .wrapping_mul(6_364_136_223_846_793_005)
        .wrapping_add(1_442_695_040_888_963_407);
    (next >> 33, next)
}

// How many answers of each sort there were.
#[derive(Clone, Copy)]
struct Tally {
    keys: u32,
    cuts: u32,
    others: u32,
}

fn compare_key(rt: &impl Abort, last: Option<u64>, key: u64) {
    assert!(rt; last < Some(key), "key {key} came after {last:?}");
}

fn compare_tally(rt: &impl Abort, tally: Tally) {
    for (count, sort) in [
        (tally.keys, "keys"),
        (tally.cuts, "cuts"),
        (tally.others, "others"),
    ] {
        assert!(rt; count > 1000, "{count} {sort}");
    }
}

#[test]
fn no_key_comes_twice(rt: HostRuntime) {
    let mut store = [0, 3, 0, 3];
    let mut last = None;
    let mut tally = Tally {
        keys: 0,
        cuts: 0,
        others: 0,
    };
    let mut state = 2026;
    for _ in 0..20_000 {
        let (levels, after) = random(state);
        let (lasts, after) = random(after);
        state = after;
        match reserve(levels % 22, &mut store, lasts % 4) {
            Done::Key(key) => {
                compare_key(&rt, last, key);
                last = Some(key);
                tally.keys = tally.keys.saturating_add(1);
            }
            Done::Cut => tally.cuts = tally.cuts.saturating_add(1),
            Done::Empty | Done::Refused(_) => tally.others = tally.others.saturating_add(1),
        }
    }
    compare_tally(&rt, tally);
}
