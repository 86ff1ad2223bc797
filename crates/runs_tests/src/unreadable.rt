// Lines that cannot be read, each between lines that show what it left: nothing is changed.
use crate::printed::compare;
use std::alloc::Global;
use std::process::Abort;
use std::test::Fail;

const BEFORE: &'static [u8] = b"store 0 3 1 10\n\
    levels 1 bits 1 seed 17\n\
    power 1\n\
    state\n";

const AFTER: &'static [u8] = b"\n\
    state\n\
    root\n\
    sign a deed\n\
    state\n";

const PRINTED: &'static str = "store 0 3 1 10\n\
    5 4\n\
    store 0 3 1 10\n\
    ec145410ba8216a0dfc973c5e18842cbd0f1547847cc3b8e20f6681f29188944\n\
    cut\n\
    store 2 3 1 10\n";

// Lines that are no commands: other words, or the words of commands written otherwise, with other spaces, or with numbers that are none or too large.
const UNREADABLE: &'static [u8] = b"
\x20
 \x20
\t
\r
\0
\xff
\xc3
\xc3\xa9
\xef\xbb\xbfstate
# a comment
key 0
parts
others
path
cut
all given
accepted
no
5 4
quit
 state
state\x20
state \x20
state\t
\tstate
state\r
state\0
state\xff
state 0
states
State
STATE
statE
state state
 root
root\x20
root\r
root\0
root 0
roots
Root
ROOT
 slot
slot\x20
slot\r
slot\0
slot 1 10
slots
Slot
SLOT
 store 1
store\x20
store \x20
store  1
store 1\x20
store 1  2
store 0 3 0 3\x20
store\t1
store 1\t2
store 1\r
store\r
store\0
store 1\0
store 1 \0
store \xff
store 1\xff
store \xd9\xa1
store1
stores
stores 1
Store 1
STORE 1
store +1
store -1
store -0
store 1.0
store 1,2
store 1_000
store 1e3
store 0x1
store a
store 1 a
store 1a
store :
store /
store 4294967296
store 4294967300
store 9999999999
store 1 2 3 4294967296
store 18446744073709551616
store 18446744073709551617 3 0 3
store 00000000004294967296
store 115792089237316195423570985008687907853269984665640564039457584007913129639936
 levels 0 bits 4 seed 1
levels 0 bits 4 seed 1\x20
levels  0 bits 4 seed 1
levels 0  bits 4 seed 1
levels 0 bits  4 seed 1
levels 0 bits 4  seed 1
levels 0 bits 4 seed  1
levels\t0 bits 4 seed 1
levels 0\tbits 4 seed 1
levels 0 bits 4 seed 1\r
levels 0 bits 4 seed 1\0
levels 0 bits 4 seed \xff
levels \xff bits 4 seed 1
Levels 0 bits 4 seed 1
levels 0 Bits 4 seed 1
levels 0 bits 4 Seed 1
LEVELS 0 BITS 4 SEED 1
levels +0 bits 4 seed 1
levels 0 bits +4 seed 1
levels 0 bits 4 seed +1
levels -0 bits 4 seed 1
levels 0 bits -4 seed 1
levels 0 bits 4 seed -1
levels  bits 4 seed 1
levels bits 4 seed 1
levels 0 bits  seed 1
levels 0 bits seed 1
levels 18446744073709551616 bits 4 seed 1
levels 0 bits 18446744073709551616 seed 1
levels 0 bits 4 seed 115792089237316195423570985008687907853269984665640564039457584007913129639936
levels 0 bits 4 seed 999999999999999999999999999999999999999999999999999999999999999999999999999999
levels 0 bits 4 seed 0x11
levels 0 bits 4 seed a
levels 0 bits 4 seed 1 2
levels 0 bits 4 seeds 1
levels 0 seed 1 bits 4
bits 4 levels 0 seed 1
level 0 bits 4 seed 1
levels 0 4 1
 power 2
power 2\x20
power  2
power\t2
power 2\r
power 2\0
power \xff
power +2
power -2
power 2.0
power a
power 2 2
power 18446744073709551616
power 99999999999999999999999
power2
powers 2
Power 2
POWER 2
 sign a
sign\ta
sign\0a
sign\r
signs a
signa
Sign a
SIGN a
 look
looks a
look\t
look\r
look\0
look\xff
look1
Look
LOOK a
lookROOT a";

fn between(rt: &impl Abort, heap: Global, line: &[u8]) -> Result<(), Fail> {
    let input = [BEFORE, line, AFTER].concat(heap)?;
    compare(rt, heap, &input, PRINTED)
}

#[test]
fn lines_that_cannot_be_read(rt: HostRuntime) -> Result<(), Fail> {
    for line in UNREADABLE.split(|byte| *byte == b'\n') {
        between(&rt, rt.alloc(), line)?;
    }
    Ok(())
}

// Lines of which no shorter front can be read; only a front that is `look` is left out, since it takes lines with it.
const CUT_SHORT: &'static [&'static [u8]] = &[
    b"state",
    b"root",
    b"slot",
    b"store",
    b"sign ",
    b"power 2",
    b"levels 0 bits 4 seed 1",
    b"look",
];

#[test]
fn lines_that_are_cut_short(rt: HostRuntime) -> Result<(), Fail> {
    for line in CUT_SHORT {
        for length in 0..line.len() {
            between(&rt, rt.alloc(), &line[..length])?;
        }
    }
    Ok(())
}
