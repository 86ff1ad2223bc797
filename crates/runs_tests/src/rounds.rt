// Signatures that are printed, read back: each is accepted, and none of which a digit or another character is changed.
use crate::printed::{compare, printed};
use std::alloc::Global;
use std::process::Abort;
use std::str::from_utf8;
use std::test::Fail;

// Small trees, and stores of which one of their keys comes next.
const SIGNERS: &'static [(&'static str, &'static str)] = &[
    ("store 0 3 0 3\n", "levels 0 bits 1 seed 17\n"),
    ("store 0 3 0 3\n", "levels 0 bits 4 seed 0\n"),
    ("store 0 3 0 3\n", "levels 1 bits 2 seed 17\n"),
    (
        "store 0 3 1 10\n",
        "levels 1 bits 3 seed 18446744073709551616\n",
    ),
    (
        "store 2 17 1 10\n",
        "levels 3 bits 1 seed 115792089237316195423570985008687907853269984665640564039457584007913129639935\n",
    ),
];

// What is typed to look at a signature that a signer gives, with the lines that are printed for it.
fn looked(heap: Global, store: &str, tree: &str) -> Result<String, Fail> {
    let typed = [store, tree, "root\nsign a deed\n"].concat(heap)?;
    let output = printed(heap, typed.as_bytes(), 64)?;
    let (root, signature) = from_utf8(&output)?.split_once('\n').unwrap_or(("", ""));
    Ok([tree, "look ", root, " a deed\n", signature].concat(heap)?)
}

fn compare_spliced(
    rt: &impl Abort,
    heap: Global,
    parts: [&[u8]; 3],
    expected: &str,
) -> Result<(), Fail> {
    let input = parts.concat(heap)?;
    compare(rt, heap, &input, expected)
}

// Changes a byte of it, by its place, its line, and how many spaces stand before it there. The words of the `look` line are left out, since what is no `look` takes no lines with it, and so is its text.
fn compare_changed(
    rt: &impl Abort,
    heap: Global,
    input: &[u8],
    place: usize,
    line: usize,
    spaces: usize,
) -> Result<(), Fail> {
    let (front, behind) = input.split_at(place.min(input.len()));
    let Some((byte, behind)) = behind.split_first() else {
        return Ok(());
    };
    if line == 0 || line == 1 && spaces != 1 {
        return Ok(());
    }
    if spaces > 0 && *byte != b' ' {
        let digit = if *byte == b'0' { b"1" } else { b"0" };
        compare_spliced(rt, heap, [front, digit, behind], "no\n")?;
    }
    let refusal = format!(in heap; "5 {line}\n")?;
    compare_spliced(rt, heap, [front, b"x", behind], &refusal)
}

// Looks at it as it is, and with each byte changed.
fn compare_changes(rt: &impl Abort, heap: Global, input: &[u8]) -> Result<(), Fail> {
    compare(rt, heap, input, "accepted\n")?;
    let mut line = 0usize;
    let mut spaces = 0usize;
    for (place, byte) in input.iter().enumerate() {
        if *byte == b'\n' {
            line = line.saturating_add(1);
            spaces = 0;
        } else {
            compare_changed(rt, heap, input, place, line, spaces)?;
            spaces = spaces.saturating_add(usize::from(*byte == b' '));
        }
    }
    Ok(())
}

#[test]
fn signatures_that_are_read_back(rt: HostRuntime) -> Result<(), Fail> {
    for (store, tree) in SIGNERS {
        let input = looked(rt.alloc(), store, tree)?;
        compare_changes(&rt, rt.alloc(), input.as_bytes())?;
    }
    Ok(())
}
