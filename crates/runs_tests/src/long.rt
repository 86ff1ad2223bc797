// Lines of a megabyte, the last one with no newline behind it.
use crate::numbers::SIGNED_0;
use crate::printed::compare;
use std::alloc::{AllocError, Global};
use std::test::Fail;

fn long_lines(heap: Global) -> Result<String, AllocError> {
    let long = "x".repeat(heap, 1_000_000)?;
    let tree = "store 0 3 0 3\nlevels 0 bits 1 seed 17\n";
    [tree, &long, "\nsign ", &long].concat(heap)
}

#[test]
fn lines_of_a_megabyte(rt: HostRuntime) -> Result<(), Fail> {
    let typed = long_lines(rt.alloc())?;
    let expected = ["5 2\n", SIGNED_0, "\n"].concat(rt.alloc())?;
    compare(&rt, rt.alloc(), typed.as_bytes(), &expected)
}

fn long_store(heap: Global) -> Result<String, AllocError> {
    let numbers = " 1".repeat(heap, 500_000)?;
    ["store", &numbers, "\n"].concat(heap)
}

// A store of half as many numbers is printed as it was typed.
#[test]
fn a_store_of_a_megabyte(rt: HostRuntime) -> Result<(), Fail> {
    let store = long_store(rt.alloc())?;
    let typed = [&store, "state"].concat(rt.alloc())?;
    compare(&rt, rt.alloc(), typed.as_bytes(), &store)
}
