// A `look` and the four lines behind it: cut short by the end of the input, and each line spoiled in turn.
use crate::printed::compare;
use std::alloc::{AllocError, Global};
use std::process::Abort;
use std::test::Fail;

const LOOKED: &'static [u8] = b"levels 0 bits 1 seed 17\n\
    look a0bba8b2b0543401dfdf7a88d837b54d34575598fab6ab05270c26cc85354e60 a deed\n\
    key 0\n\
    parts eb86eeefaa60753e3796c02e6ee786ee0d6303b177030e288051dc8883dd1734\n\
    others b25cd5cd998d8054ae1e9e13601e83f0e43e7f3474a66165dad31262d50197b6\n\
    path\n";

// From how many of these bytes on which answer is printed.
const CUTS: &'static [(usize, &'static str)] = &[
    (0, ""),
    (1, "5 0\n"),
    // `levels 0 bits 1 seed 1` can be read
    (22, ""),
    (25, "5 1\n"),
    // the `look`, of no text and of more
    (94, "5 2\n"),
    (106, "5 3\n"),
    // `parts` with no numbers, then with one that is not whole, and with one
    (112, "5 4\n"),
    (113, "5 3\n"),
    (177, "5 4\n"),
    (184, "5 5\n"),
    (185, "5 4\n"),
    (249, "5 5\n"),
    (254, "accepted\n"),
];

// What is printed where the input ends behind so many bytes.
fn answer_to(length: usize) -> &'static str {
    CUTS.iter()
        .rev()
        .find(|cut| cut.0 <= length)
        .map_or("", |cut| cut.1)
}

#[test]
fn looks_that_are_cut_short(rt: HostRuntime) -> Result<(), Fail> {
    for length in 0..=LOOKED.len() {
        compare(&rt, rt.alloc(), &LOOKED[..length], answer_to(length))?;
    }
    Ok(())
}

// A place in a `look`: what stands before and behind it, the lines that cannot be read there and their answer, and those that can and what is answered then. What stands behind it would be commands.
struct Place {
    before: &'static [u8],
    behind: &'static [u8],
    spoiled: &'static [u8],
    refusal: &'static str,
    read: &'static [u8],
    answer: &'static str,
}

// Behind the word of a line of numbers.
const SPOILED_NUMBERS: &'static [u8] = b"\x20
 \x20
\t
\r
\0
\xff
s
 0
 a
0000000000000000000000000000000000000000000000000000000000000000
  0000000000000000000000000000000000000000000000000000000000000000
\t0000000000000000000000000000000000000000000000000000000000000000
 0000000000000000000000000000000000000000000000000000000000000000\x20
 0000000000000000000000000000000000000000000000000000000000000000\r
 0000000000000000000000000000000000000000000000000000000000000000\0
 000000000000000000000000000000000000000000000000000000000000000
 00000000000000000000000000000000000000000000000000000000000000000
 000000000000000000000000000000000000000000000000000000000000000A
 000000000000000000000000000000000000000000000000000000000000000g
 000000000000000000000000000000000000000000000000000000000000000/
 000000000000000000000000000000000000000000000000000000000000000:
 000000000000000000000000000000000000000000000000000000000000000`
 000000000000000000000000000000000000000000000000000000000000000\xff
 +000000000000000000000000000000000000000000000000000000000000000
 0x00000000000000000000000000000000000000000000000000000000000000
 0000000000000000000000000000000000000000000000000000000000000000 1
 0000000000000000000000000000000000000000000000000000000000000000  0000000000000000000000000000000000000000000000000000000000000000
 0000000000000000000000000000000000000000000000000000000000000000,0000000000000000000000000000000000000000000000000000000000000000
 00000000000000000000000000000000000000000000000000000000000000000000000000000000000000000000000000000000000000000000000000000000";

const NUMBERS: &'static [u8] = b"
 ffffffffffffffffffffffffffffffffffffffffffffffffffffffffffffffff
 0123456789abcdef0123456789abcdef0123456789abcdef0123456789abcdef 0000000000000000000000000000000000000000000000000000000000000000";

const PLACES: &'static [Place] = &[
    Place {
        before: b"",
        behind: b"\nstore 9 66 9 66\nlevels 1 bits 1 seed 1\npower 2\nsign a deed\n",
        spoiled: b"look
look\x20
look a
look a deed
look \xff
look \0
look look
look 0000000000000000000000000000000000000000000000000000000000000000
look  0000000000000000000000000000000000000000000000000000000000000000 a
look 0000000000000000000000000000000000000000000000000000000000000000\ta
look 000000000000000000000000000000000000000000000000000000000000000 a
look 00000000000000000000000000000000000000000000000000000000000000000 a
look 000000000000000000000000000000000000000000000000000000000000000A a
look 000000000000000000000000000000000000000000000000000000000000000g a
look 000000000000000000000000000000000000000000000000000000000000000: a
look 000000000000000000000000000000000000000000000000000000000000000` a
look +000000000000000000000000000000000000000000000000000000000000000 a
look 0x00000000000000000000000000000000000000000000000000000000000000 a
look 000000000000000000000000000000000000000000000000000000000000000\xff a",
        refusal: "5 3",
        read: b"look 0000000000000000000000000000000000000000000000000000000000000000\x20
look 0000000000000000000000000000000000000000000000000000000000000000  a
look 0123456789abcdef0123456789abcdef0123456789abcdef0123456789abcdef \xff\0\r",
        answer: "5 4",
    },
    Place {
        before: b"look 0000000000000000000000000000000000000000000000000000000000000000 a\n",
        behind: b"\nlevels 1 bits 1 seed 1\npower 2\nsign a deed\n",
        spoiled: b"
key
key\x20
key  0
key 0\x20
 key 0
key\t0
key 0\r
key 0\0
key \xff
key0
keys 0
Key 0
KEY 0
key +0
key -0
key 0 1
key a
key 18446744073709551616
key 99999999999999999999999
parts
state
look
look 0000000000000000000000000000000000000000000000000000000000000000 a",
        refusal: "5 4",
        read: b"key 007
key 18446744073709551615
key 00000000000000000000000000000000",
        answer: "5 5",
    },
    Place {
        before: b"look 0000000000000000000000000000000000000000000000000000000000000000 a\nkey 0\n",
        behind: b"\npower 2\nsign a deed\n",
        spoiled: b"
part
 parts
Parts
others
path
key 0
look",
        refusal: "5 5",
        read: b"parts",
        answer: "5 6",
    },
    Place {
        before: b"look 0000000000000000000000000000000000000000000000000000000000000000 a\nkey 0\nparts\n",
        behind: b"\nsign a deed\n",
        spoiled: b"
other
 others
Others
parts
path
look",
        refusal: "5 6",
        read: b"others",
        answer: "5 7",
    },
    Place {
        before: b"look 0000000000000000000000000000000000000000000000000000000000000000 a\nkey 0\nparts\nothers\n",
        behind: b"\n",
        spoiled: b"
pat
 path
Path
parts
others
look",
        refusal: "5 7",
        read: b"path",
        answer: "no",
    },
    Place {
        before: b"look 0000000000000000000000000000000000000000000000000000000000000000 a\nkey 0\nparts",
        behind: b"\npower 2\nsign a deed\n",
        spoiled: SPOILED_NUMBERS,
        refusal: "5 5",
        read: NUMBERS,
        answer: "5 6",
    },
    Place {
        before: b"look 0000000000000000000000000000000000000000000000000000000000000000 a\nkey 0\nparts\nothers",
        behind: b"\nsign a deed\n",
        spoiled: SPOILED_NUMBERS,
        refusal: "5 6",
        read: NUMBERS,
        answer: "5 7",
    },
    Place {
        before: b"look 0000000000000000000000000000000000000000000000000000000000000000 a\nkey 0\nparts\nothers\npath",
        behind: b"\n",
        spoiled: SPOILED_NUMBERS,
        refusal: "5 7",
        read: NUMBERS,
        answer: "no",
    },
];

const BEFORE: &'static [u8] = b"store 0 3 0 3\n\
    levels 0 bits 1 seed 17\n\
    power 1\n";

const AFTER: &'static [u8] = b"state\n\
    root\n\
    sign a deed\n\
    state\n";

// What is printed for the lines after it: none of the commands was done, and the power is as it was.
const PRINTED: &'static str = "\n\
    store 0 3 0 3\n\
    a0bba8b2b0543401dfdf7a88d837b54d34575598fab6ab05270c26cc85354e60\n\
    cut\n\
    store 1 3 0 3\n";

// A `look` with that line in a place, between lines that show what it left.
fn typed(heap: Global, before: &[u8], line: &[u8], behind: &[u8]) -> Result<Vec<u8>, AllocError> {
    [BEFORE, before, line, behind, AFTER].concat(heap)
}

// Puts each line of a text in a place.
fn compare_each(
    rt: &impl Abort,
    heap: Global,
    place: &Place,
    lines: &[u8],
    answer: &str,
) -> Result<(), Fail> {
    let expected = [answer, PRINTED].concat(heap)?;
    for line in lines.split(|byte| *byte == b'\n') {
        let input = typed(heap, place.before, line, place.behind)?;
        compare(rt, heap, &input, &expected)?;
    }
    Ok(())
}

#[test]
fn looks_of_which_a_line_is_spoiled(rt: HostRuntime) -> Result<(), Fail> {
    for place in PLACES {
        compare_each(&rt, rt.alloc(), place, place.spoiled, place.refusal)?;
        compare_each(&rt, rt.alloc(), place, place.read, place.answer)?;
    }
    Ok(())
}
