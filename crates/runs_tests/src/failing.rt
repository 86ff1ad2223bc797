// Input that fails and output that is full: an error, and nothing else is printed.
use runs::run;
use std::alloc::Global;
use std::io;
use std::io::{BufReader, ErrorKind, Read, Write};
use std::process::Abort;
use std::test::Fail;

// An input that is handed out byte by byte, and fails behind the last one.
#[derive(Drop)]
struct Broken<'a> {
    left: &'a [u8],
}

impl Read for Broken<'_> {
    fn read(&mut self, buf: &mut [u8]) -> io::Result<usize> {
        let (Some((byte, left)), Some(there)) = (self.left.split_first(), buf.first_mut()) else {
            return Err(io::Error::new(ErrorKind::BrokenPipe, "no more input"));
        };
        *there = *byte;
        self.left = left;
        Ok(1)
    }
}

// An output that takes a byte at a time and is interrupted before each, and has room for so many; then it takes none.
#[derive(Drop)]
struct Narrow {
    taken: Vec<u8>,
    room: usize,
    interrupted: bool,
    // How many were taken when it was flushed.
    flushed: usize,
}

impl Write for Narrow {
    fn write(&mut self, buf: &[u8]) -> io::Result<usize> {
        self.interrupted = !self.interrupted;
        if self.interrupted {
            return Err(io::Error::new(ErrorKind::Interrupted, "a signal"));
        }
        let Some(byte) = buf.first() else {
            return Ok(0);
        };
        if self.taken.len() >= self.room {
            return Ok(0);
        }
        self.taken.push(*byte)?;
        Ok(1)
    }

    fn flush(&mut self) -> io::Result<()> {
        self.flushed = self.taken.len();
        Ok(())
    }
}

// Input before a read that fails, and what is printed: only a line that ends is done, and a `look` that waits for lines is not answered.
const BROKEN: &'static [(&'static [u8], &'static str)] = &[
    (b"", ""),
    (b"state", ""),
    (b"x", ""),
    (b"state\n", "store\n"),
    (b"x\n", "5 0\n"),
    (b"store 0 3 0 3\nstate\nsta", "store 0 3 0 3\n"),
    (b"store 0 3 0 3\nstate\nstate", "store 0 3 0 3\n"),
    (b"state\nlook", "store\n"),
    (b"state\nlook\n", "store\n"),
    (b"state\nlook\n\n\n\n", "store\n"),
    (b"state\nlook\n\n\n\nx", "store\n"),
    (b"state\nlook\n\n\n\nx\n", "store\n5 1\n"),
];

// What is printed before the input fails, and which error a run ends with.
fn run_broken(heap: Global, left: &[u8], output: &mut Vec<u8>) -> io::Result<Option<ErrorKind>> {
    let reader = BufReader::with_capacity(heap, 8, Broken { left })?;
    let result = run(heap, reader, output);
    Ok(result.err().map(|error| error.kind()))
}

fn compare_broken(rt: &impl Abort, heap: Global, left: &[u8], expected: &str) -> Result<(), Fail> {
    let mut output = Vec::new(heap);
    let kind = run_broken(heap, left, &mut output)?;
    assert_eq!(rt;
        (kind, output.as_slice()),
        (Some(ErrorKind::BrokenPipe), expected.as_bytes()),
        "{}",
        left.escape_ascii()
    );
    Ok(())
}

#[test]
fn input_that_fails(rt: HostRuntime) -> Result<(), Fail> {
    for (left, expected) in BROKEN {
        compare_broken(&rt, rt.alloc(), left, expected)?;
    }
    Ok(())
}

const TYPED: &'static [u8] = b"store 0 3 0 3\n\
    levels 0 bits 1 seed 17\n\
    state\n\
    root\n\
    power 0\n\
    sign a deed\n\
    x\n\
    slot\n\
    look\n";

const PRINTED: &'static [u8] = b"store 0 3 0 3\n\
    a0bba8b2b0543401dfdf7a88d837b54d34575598fab6ab05270c26cc85354e60\n\
    cut\n\
    5 6\n\
    slot 0 3\n\
    5 8\n";

// Which error a run ends with.
fn run_narrow(heap: Global, writer: &mut Narrow) -> Option<ErrorKind> {
    run(heap, TYPED, writer).err().map(|error| error.kind())
}

fn compare_narrow(rt: &impl Abort, heap: Global, room: usize) {
    let mut writer = Narrow {
        taken: Vec::new(heap),
        room,
        interrupted: false,
        flushed: 0,
    };
    let kind = run_narrow(heap, &mut writer);
    let expected = (room < PRINTED.len()).then_some(ErrorKind::WriteZero);
    // It is flushed where all was taken.
    let flushed = if expected.is_none() {
        room
    } else {
        writer.flushed
    };
    assert_eq!(rt;
        (kind, Some(writer.taken.as_slice()), writer.flushed),
        (expected, PRINTED.get(..room), flushed),
        "room for {room}"
    );
}

#[test]
fn output_that_fails(rt: HostRuntime) {
    for room in 0..=PRINTED.len() {
        compare_narrow(&rt, rt.alloc(), room);
    }
}

// An answer of some thousand bytes, to an output that is interrupted before each of them.
#[test]
fn a_long_answer_byte_by_byte(rt: HostRuntime) -> Result<(), Fail> {
    let heap = rt.alloc();
    let numbers = " 1".repeat(heap, 2_000)?;
    let store = ["store", numbers.as_str(), "\n"].concat(heap)?;
    let typed = [store.as_str(), "state"].concat(heap)?;
    let mut writer = Narrow {
        taken: Vec::new(heap),
        room: store.len(),
        interrupted: false,
        flushed: 0,
    };
    run(heap, typed.as_bytes(), &mut writer)?;
    assert_eq!(rt; writer.taken.as_slice(), store.as_bytes());
    Ok(())
}
