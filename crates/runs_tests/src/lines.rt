// Each line of the program and each refusal, as short sessions: a typed line stands behind `> `, the others are printed. Roots and signatures are those of tests/model.py.
use crate::numbers::{ROOT, SIGNED_0, SIGNED_1};
use crate::printed::compare;
use std::alloc::{AllocError, Global};
use std::process::Abort;
use std::test::Fail;

const SESSIONS: &'static str = "# the store: as many numbers as there are, below 2^32
> state
> slot
store
slot

> store
> state
> slot
store
slot

> store 5
> state
> slot
store 5
slot

> store 1 10 0
> state
> slot
store 1 10 0
slot

> store 1 10 0 3 2
> state
> slot
store 1 10 0 3 2
slot

> store 4294967295 4294967295 0 4294967294
> state
store 4294967295 4294967295 0 4294967294

> store 01 0000000000000000000010 000 3
> state
store 1 10 0 3

> store 0 3 0 3
> store 7
> state
store 7

> store 0 3 0 3
> store
> state
store

# the slot that counts: the one that is not written next
> store 0 3 0 3
> slot
slot 0 3

> store 1 10 0 3
> slot
slot 1 10

> store 4 31 5 38
> slot
slot 5 38

> store 5 38 4 31
> slot
slot 5 38

> store 6 31 5 38
> slot
slot 5 38

> store 5 38 6 31
> slot
slot 5 38

> store 6 31 5 39
> slot
slot

# a check is taken modulo 4,294,967,291
> store 613566755 4294967288 0 0
> slot
slot 613566755 4294967288

> store 613566756 4 0 0
> slot
slot 613566756 4

> store 613566756 4294967295 0 0
> slot
slot

> store 4294967295 31 0 0
> slot
slot 4294967295 31

# roots
> levels 0 bits 1 seed 17
> root
a0bba8b2b0543401dfdf7a88d837b54d34575598fab6ab05270c26cc85354e60

> levels 00 bits 01 seed 0017
> root
a0bba8b2b0543401dfdf7a88d837b54d34575598fab6ab05270c26cc85354e60

> levels 1 bits 1 seed 17
> root
ec145410ba8216a0dfc973c5e18842cbd0f1547847cc3b8e20f6681f29188944

> levels 0 bits 1 seed 17
> levels 1 bits 1 seed 17
> root
ec145410ba8216a0dfc973c5e18842cbd0f1547847cc3b8e20f6681f29188944

> levels 0 bits 4 seed 17
> root
d911e4387ff2007942d8232aef5fc85aa68e1b1fcf32874e392183f61f2d0d38

> levels 0 bits 256 seed 17
> root
fa42be64f34dade04fdc3692cd1bd0f3bf66d39aae35dd7bd83065515c2a8229

> levels 0 bits 1 seed 0
> root
61d43259933dc412cf74b44317d893bd54e4a9daf29a31c7bd1ab6ea3d9c4ec6

> levels 0 bits 1 seed 115792089237316195423570985008687907853269984665640564039457584007913129639935
> root
c51baa1e379aee329bc85b89e19cd52c4b461612b52cd591a94362625947c5c2

# signing, and what it leaves of the store
> store 0 3 0 3
> levels 0 bits 1 seed 17
> sign a deed
> state
> slot
key 0
parts eb86eeefaa60753e3796c02e6ee786ee0d6303b177030e288051dc8883dd1734
others b25cd5cd998d8054ae1e9e13601e83f0e43e7f3474a66165dad31262d50197b6
path
store 1 10 0 3
slot 1 10

> store 0 3 0 3
> levels 0 bits 1 seed 17
> sign a
> state
key 0
parts 37e04e78de539af322c81b6dbbe51d2d4c9f4e1aa9311b04b9c6351080a2b147
others 052ebd4f3cc692d1741c8e1a89b3766bed339fbb1143d0ed66f6502036db51ef
path
store 1 10 0 3

> store 0 3 0 3
> levels 1 bits 1 seed 17
> sign a deed
> sign a deed
> sign a deed
> state
key 0
parts eb86eeefaa60753e3796c02e6ee786ee0d6303b177030e288051dc8883dd1734
others b25cd5cd998d8054ae1e9e13601e83f0e43e7f3474a66165dad31262d50197b6
path d0aa466a1dcf0c21dc21fcbe4383b3f4b07438b919502737938d97c8677b03cd
key 1
parts b71ba5f429076db92be53b38f0addff3a43abe2a28945317a106bbf0d2b9e352
others 1ddb08c095360cf4d90ea98b0a0fbf8605d9ad47f5bd13024bc9557ee8596453
path a0bba8b2b0543401dfdf7a88d837b54d34575598fab6ab05270c26cc85354e60
all given
store 1 10 2 17

> store 9 9 0 3
> levels 0 bits 1 seed 17
> sign a deed
> state
key 0
parts eb86eeefaa60753e3796c02e6ee786ee0d6303b177030e288051dc8883dd1734
others b25cd5cd998d8054ae1e9e13601e83f0e43e7f3474a66165dad31262d50197b6
path
store 1 10 0 3

> store 0 3 9 9
> levels 0 bits 1 seed 17
> power 1
> sign a deed
> state
cut
store 0 3 1 9

# power for so many writes, at the next `sign` line only
> store 0 3 0 3
> levels 0 bits 1 seed 17
> power 0
> sign a deed
> state
> sign a deed
> state
cut
store 0 3 0 3
key 0
parts eb86eeefaa60753e3796c02e6ee786ee0d6303b177030e288051dc8883dd1734
others b25cd5cd998d8054ae1e9e13601e83f0e43e7f3474a66165dad31262d50197b6
path
store 1 10 0 3

> store 0 3 0 3
> levels 0 bits 1 seed 17
> power 1
> sign a deed
> state
> slot
> power 1
> sign a deed
> state
> sign a deed
> state
cut
store 1 3 0 3
slot 0 3
cut
store 1 3 0 3
key 0
parts eb86eeefaa60753e3796c02e6ee786ee0d6303b177030e288051dc8883dd1734
others b25cd5cd998d8054ae1e9e13601e83f0e43e7f3474a66165dad31262d50197b6
path
store 1 10 0 3

> store 0 3 0 3
> levels 0 bits 1 seed 17
> power 2
> sign a deed
key 0
parts eb86eeefaa60753e3796c02e6ee786ee0d6303b177030e288051dc8883dd1734
others b25cd5cd998d8054ae1e9e13601e83f0e43e7f3474a66165dad31262d50197b6
path

> store 0 3 0 3
> levels 0 bits 1 seed 17
> power 18446744073709551615
> sign a deed
key 0
parts eb86eeefaa60753e3796c02e6ee786ee0d6303b177030e288051dc8883dd1734
others b25cd5cd998d8054ae1e9e13601e83f0e43e7f3474a66165dad31262d50197b6
path

> store 0 3 0 3
> levels 0 bits 1 seed 17
> power 00000000000000000000001
> sign a deed
cut

> store 0 3 0 3
> levels 0 bits 1 seed 17
> power 0
> power 2
> sign a deed
key 0
parts eb86eeefaa60753e3796c02e6ee786ee0d6303b177030e288051dc8883dd1734
others b25cd5cd998d8054ae1e9e13601e83f0e43e7f3474a66165dad31262d50197b6
path

# it waits for that line, whatever comes before it
> power 1
> store 9 66 9 66
> levels 1 bits 1 seed 1
> state
> slot
> look 0000000000000000000000000000000000000000000000000000000000000000 a
> key 0
> parts
> others
> path
> look
> x
> x
> x
> sign b
> nothing
> store 0 3 0 3
> levels 0 bits 1 seed 17
> root
> sign a deed
store 9 66 9 66
slot 9 66
no
5 10
5 15
a0bba8b2b0543401dfdf7a88d837b54d34575598fab6ab05270c26cc85354e60
cut

# and is over after it, whatever that is answered
> power 1
> sign a deed
> store 0 3 0 3
> levels 0 bits 1 seed 17
> sign a deed
2 0
key 0
parts eb86eeefaa60753e3796c02e6ee786ee0d6303b177030e288051dc8883dd1734
others b25cd5cd998d8054ae1e9e13601e83f0e43e7f3474a66165dad31262d50197b6
path

> store 1 10 0 3
> levels 0 bits 1 seed 17
> power 1
> sign a deed
> state
> store 0 3 0 3
> sign a deed
all given
store 1 10 0 3
key 0
parts eb86eeefaa60753e3796c02e6ee786ee0d6303b177030e288051dc8883dd1734
others b25cd5cd998d8054ae1e9e13601e83f0e43e7f3474a66165dad31262d50197b6
path

> store 0 3 0 3
> power 0
> sign a deed
> levels 0 bits 1 seed 17
> sign a deed
4 0
key 0
parts eb86eeefaa60753e3796c02e6ee786ee0d6303b177030e288051dc8883dd1734
others b25cd5cd998d8054ae1e9e13601e83f0e43e7f3474a66165dad31262d50197b6
path

# refusals of the levels, the store, the next key and the bits: the first that applies, and nothing is changed
> root
> sign a
4 0
2 0

> levels 21 bits 0 seed 0
> root
> sign a
1 21
1 21

> levels 18446744073709551615 bits 1 seed 0
> root
> sign a
1 18446744073709551615
1 18446744073709551615

> store 3 24 0 3
> levels 1 bits 0 seed 0
> sign a
> state
3 3
store 3 24 0 3

> store 1
> levels 0 bits 0 seed 0
> sign a
2 1

> store 0 3 0
> levels 0 bits 1 seed 0
> sign a
2 3

> store 0 3 0 3 0
> levels 0 bits 1 seed 0
> sign a
> state
2 5
store 0 3 0 3 0

> store 0 4 0 4
> levels 0 bits 1 seed 0
> sign a
> state
2 0
store 0 4 0 4

> store 0 4 2 17
> levels 0 bits 1 seed 0
> sign a
> state
3 2
store 0 4 2 17

> store 0 3 0 3
> levels 0 bits 0 seed 0
> root
> sign a
> state
4 0
4 0
store 0 3 0 3

> store 1 10 0 3
> levels 0 bits 257 seed 0
> root
> sign a
4 257
4 257

> store 0 3 0 3
> levels 0 bits 18446744073709551615 seed 0
> root
> sign a
4 18446744073709551615
4 18446744073709551615

# twenty levels are as many as there may be, with 1,048,576 keys
> levels 20 bits 0 seed 0
> root
4 0

> store 1048575 7340028 0 4
> levels 20 bits 256 seed 0
> power 1
> sign a
> state
cut
store 1048575 7340028 1048576 4

> store 1048576 7340035 0 4
> levels 20 bits 1 seed 0
> sign a
all given

> store 1048577 7340042 0 4
> levels 20 bits 1 seed 0
> sign a
3 1048577

# looking: whatever the levels and bits, with no store
> levels 0 bits 1 seed 17
> look a0bba8b2b0543401dfdf7a88d837b54d34575598fab6ab05270c26cc85354e60 a deed
> key 0
> parts eb86eeefaa60753e3796c02e6ee786ee0d6303b177030e288051dc8883dd1734
> others b25cd5cd998d8054ae1e9e13601e83f0e43e7f3474a66165dad31262d50197b6
> path
> look a0bba8b2b0543401dfdf7a88d837b54d34575598fab6ab05270c26cc85354e60 a
> key 0
> parts 37e04e78de539af322c81b6dbbe51d2d4c9f4e1aa9311b04b9c6351080a2b147
> others 052ebd4f3cc692d1741c8e1a89b3766bed339fbb1143d0ed66f6502036db51ef
> path
> look a0bba8b2b0543401dfdf7a88d837b54d34575598fab6ab05270c26cc85354e60 a
> key 0
> parts eb86eeefaa60753e3796c02e6ee786ee0d6303b177030e288051dc8883dd1734
> others b25cd5cd998d8054ae1e9e13601e83f0e43e7f3474a66165dad31262d50197b6
> path
> look ec145410ba8216a0dfc973c5e18842cbd0f1547847cc3b8e20f6681f29188944 a deed
> key 0
> parts eb86eeefaa60753e3796c02e6ee786ee0d6303b177030e288051dc8883dd1734
> others b25cd5cd998d8054ae1e9e13601e83f0e43e7f3474a66165dad31262d50197b6
> path
accepted
accepted
no
no

> levels 1 bits 1 seed 0
> look ec145410ba8216a0dfc973c5e18842cbd0f1547847cc3b8e20f6681f29188944 a deed
> key 0
> parts eb86eeefaa60753e3796c02e6ee786ee0d6303b177030e288051dc8883dd1734
> others b25cd5cd998d8054ae1e9e13601e83f0e43e7f3474a66165dad31262d50197b6
> path d0aa466a1dcf0c21dc21fcbe4383b3f4b07438b919502737938d97c8677b03cd
> look ec145410ba8216a0dfc973c5e18842cbd0f1547847cc3b8e20f6681f29188944 a deed
> key 1
> parts b71ba5f429076db92be53b38f0addff3a43abe2a28945317a106bbf0d2b9e352
> others 1ddb08c095360cf4d90ea98b0a0fbf8605d9ad47f5bd13024bc9557ee8596453
> path a0bba8b2b0543401dfdf7a88d837b54d34575598fab6ab05270c26cc85354e60
> levels 2 bits 1 seed 0
> look ec145410ba8216a0dfc973c5e18842cbd0f1547847cc3b8e20f6681f29188944 a deed
> key 1
> parts b71ba5f429076db92be53b38f0addff3a43abe2a28945317a106bbf0d2b9e352
> others 1ddb08c095360cf4d90ea98b0a0fbf8605d9ad47f5bd13024bc9557ee8596453
> path a0bba8b2b0543401dfdf7a88d837b54d34575598fab6ab05270c26cc85354e60
> levels 1 bits 2 seed 0
> look ec145410ba8216a0dfc973c5e18842cbd0f1547847cc3b8e20f6681f29188944 a deed
> key 1
> parts b71ba5f429076db92be53b38f0addff3a43abe2a28945317a106bbf0d2b9e352
> others 1ddb08c095360cf4d90ea98b0a0fbf8605d9ad47f5bd13024bc9557ee8596453
> path a0bba8b2b0543401dfdf7a88d837b54d34575598fab6ab05270c26cc85354e60
accepted
accepted
no
no

> levels 21 bits 0 seed 0
> look 0000000000000000000000000000000000000000000000000000000000000000 a
> key 0
> parts
> others
> path
> levels 18446744073709551615 bits 18446744073709551615 seed 0
> look ffffffffffffffffffffffffffffffffffffffffffffffffffffffffffffffff\x20
> key 18446744073709551615
> parts
> others
> path
no
no

# lines are numbered from 0, those of a `look` among them
> x
> look 0000000000000000000000000000000000000000000000000000000000000000 a
> key 0
> parts
> others
> path
> x
> look
> x
> x
> x
> x
> x
5 0
no
5 6
5 7
5 12";

// What is typed in a session, and what is printed. A line that begins with `#` is neither.
fn typed_and_printed(heap: Global, session: &str) -> Result<(String, String), AllocError> {
    let mut typed = String::new(heap);
    let mut printed = String::new(heap);
    for line in session.lines() {
        if line.starts_with('#') {
            continue;
        }
        let (text, line) = match line.strip_prefix("> ") {
            Some(line) => (&mut typed, line),
            None => (&mut printed, line),
        };
        text.push_str(line)?;
        text.push('\n')?;
    }
    Ok((typed, printed))
}

fn compare_session(rt: &impl Abort, heap: Global, session: &str) -> Result<(), Fail> {
    let (typed, printed) = typed_and_printed(heap, session)?;
    compare(rt, heap, typed.as_bytes(), &printed)?;
    // The last line may lack its newline.
    let shorter = typed.strip_suffix("\n").unwrap_or("");
    compare(rt, heap, shorter.as_bytes(), &printed)
}

#[test]
fn each_line_and_refusal(rt: HostRuntime) -> Result<(), Fail> {
    for session in SESSIONS.split("\n\n") {
        compare_session(&rt, rt.alloc(), session)?;
    }
    Ok(())
}

// Texts, and the first bit of the hash of each: a text is all behind the one space, whatever its bytes.
const TEXTS: &'static [(&'static [u8], &'static str)] = &[
    (b"", SIGNED_1),
    (b" ", SIGNED_1),
    (b"a deed", SIGNED_0),
    (b"a deed ", SIGNED_1),
    (b"a  deed", SIGNED_1),
    (b"a deed\r", SIGNED_1),
    (b"a\tdeed", SIGNED_0),
    (b"\0", SIGNED_0),
    (b"\xc3", SIGNED_1),
    (b"\xc3\xa9", SIGNED_0),
    (b"\xff", SIGNED_0),
    (b"\x80\x80\x80", SIGNED_0),
    (b"look", SIGNED_1),
    (b"sign ", SIGNED_0),
];

fn sign_and_look(rt: &impl Abort, heap: Global, text: &[u8], signature: &str) -> Result<(), Fail> {
    let input = [
        b"store 0 3 0 3\nlevels 0 bits 1 seed 17\nsign ".as_slice(),
        text,
        b"\nlook ",
        ROOT.as_bytes(),
        b" ",
        text,
        b"\n",
        signature.as_bytes(),
        b"\nstate",
    ]
    .concat(heap)?;
    let expected = [signature, "\naccepted\nstore 1 10 0 3\n"].concat(heap)?;
    compare(rt, heap, &input, &expected)
}

#[test]
fn texts_of_any_bytes(rt: HostRuntime) -> Result<(), Fail> {
    for (text, signature) in TEXTS {
        sign_and_look(&rt, rt.alloc(), text, signature)?;
    }
    Ok(())
}
