// Random requests while power fails: each key comes once, in its order, until all are given.
use crate::printed::printed;
use crate::random::Random;
use std::alloc::{AllocError, Global};
use std::process::Abort;
use std::str::from_utf8;
use std::test::Fail;

// Power for 0 to 3 writes, and power that lasts.
const POWERS: [&'static str; 5] = [
    "power 0\nsign a deed\n",
    "power 1\nsign a deed\n",
    "power 2\nsign a deed\n",
    "power 3\nsign a deed\n",
    "sign a deed\n",
];

// A new store and a tree, and how many keys it has.
const TREES: &'static [(&'static str, u64)] = &[
    ("store 0 3 0 3\nlevels 1 bits 1 seed 17\n", 2),
    ("store 0 3 0 3\nlevels 2 bits 1 seed 17\n", 4),
    ("store 0 3 0 3\nlevels 4 bits 1 seed 17\n", 16),
];

// What is typed to ask for more keys than the tree has, while power fails at random.
fn requests(heap: Global, random: &mut Random, tree: &str) -> Result<String, AllocError> {
    let mut typed = String::from_str(heap, tree)?;
    for _ in 0..60 {
        let request = POWERS[random.below(5)];
        typed.push_str(request)?;
    }
    Ok(typed)
}

fn compare_key(rt: &impl Abort, key: &str, next: u64) -> Result<(), Fail> {
    assert_eq!(rt; key.parse::<u64>()?, next);
    Ok(())
}

// How many keys are printed, each the next one.
fn count_keys(rt: &impl Abort, printed: &str) -> Result<u64, Fail> {
    let mut next = 0u64;
    for line in printed.lines() {
        if let Some(key) = line.strip_prefix("key ") {
            compare_key(rt, key, next)?;
            next = next.saturating_add(1);
        }
    }
    Ok(next)
}

fn compare_count(rt: &impl Abort, heap: Global, typed: &str, keys: u64) -> Result<(), Fail> {
    let output = printed(heap, typed.as_bytes(), 64)?;
    assert_eq!(rt; count_keys(rt, from_utf8(&output)?)?, keys, "{typed}");
    Ok(())
}

#[test]
fn no_key_comes_twice(rt: HostRuntime) -> Result<(), Fail> {
    let mut random = Random { state: 2026 };
    for (tree, keys) in TREES {
        for _ in 0..20 {
            let typed = requests(rt.alloc(), &mut random, tree)?;
            compare_count(&rt, rt.alloc(), &typed, *keys)?;
        }
    }
    Ok(())
}
