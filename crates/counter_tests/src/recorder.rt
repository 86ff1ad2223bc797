// A device that keeps each write that is made to it, and fails where it is told to: what a driver sees of a reserved key.
ghost use Rattle.std.specs.Prelude.{◌≡◌, ◌-◌, false, [], length};
ghost use Rattle.counter.specs.Cells.{still};

use counter::{Cells, Done, NotWritten, Write, reserve_in};
use std::alloc::{AllocError, Global};
use std::process::Abort;
use std::test::Fail;

#[derive(Drop)]
struct Recorder {
    numbers: Vec<u32>,
    made: Vec<Write>,
    // how many writes succeed
    lasts: usize,
}

impl Cells for Recorder {
    // It fails where it is told to, and where memory does.
    ghost sure = { false };

    ghost held = { λ r. r.numbers.items };

    ghost writes = { λ r. r.made.items };

    ghost lasts = { λ r. r.lasts - length r.made.items };

    ghost disk = { λ r. still r.numbers.items };

    ghost loans = { λ _. [] };

    fn numbers(&self) -> &[u32] {
        &self.numbers
    }

    fn write(&mut self, place: usize, value: u32) -> Result<(), NotWritten> {
        if self.made.len() >= self.lasts || place >= self.numbers.len() {
            return Err(NotWritten);
        }
        if self.made.push(Write { place, value }).is_err() {
            return Err(NotWritten);
        }
        self.numbers[place] = value;
        Ok(())
    }
}

// A store, how many writes succeed, the answer, the writes that were seen, and what is left.
#[derive(Drop)]
struct Case {
    store: [u32; 4],
    lasts: usize,
    done: Done,
    writes: &'static [(usize, u32)],
    left: [u32; 4],
}

const CASES: &'static [Case] = &[
    Case {
        store: [0, 3, 0, 3],
        lasts: 9,
        done: Done::Key(0),
        writes: &[(0, 1), (1, 10)],
        left: [1, 10, 0, 3],
    },
    Case {
        store: [1, 10, 0, 3],
        lasts: 9,
        done: Done::Key(1),
        writes: &[(2, 2), (3, 17)],
        left: [1, 10, 2, 17],
    },
    Case {
        store: [4, 31, 5, 38],
        lasts: 0,
        done: Done::Cut,
        writes: &[],
        left: [4, 31, 5, 38],
    },
    Case {
        store: [4, 31, 5, 38],
        lasts: 1,
        done: Done::Cut,
        writes: &[(0, 6)],
        left: [6, 31, 5, 38],
    },
    Case {
        store: [6, 31, 5, 38],
        lasts: 1,
        done: Done::Cut,
        writes: &[(0, 6)],
        left: [6, 31, 5, 38],
    },
    Case {
        store: [6, 31, 5, 38],
        lasts: 2,
        done: Done::Key(5),
        writes: &[(0, 6), (1, 45)],
        left: [6, 45, 5, 38],
    },
    Case {
        store: [8, 59, 8, 59],
        lasts: 9,
        done: Done::Empty,
        writes: &[],
        left: [8, 59, 8, 59],
    },
    Case {
        store: [6, 31, 5, 39],
        lasts: 9,
        done: Done::Refused(keys::Refusal::Store(0)),
        writes: &[],
        left: [6, 31, 5, 39],
    },
];

// The places and the values of writes.
fn pairs(heap: Global, writes: &[Write]) -> Result<Vec<(usize, u32)>, AllocError> {
    let mut pairs = Vec::new(heap);
    for write in writes {
        pairs.push((write.place, write.value))?;
    }
    Ok(pairs)
}

// A device with a store, which fails behind so many writes.
fn device_with(heap: Global, store: &[u32; 4], lasts: usize) -> Result<Recorder, AllocError> {
    let numbers = store.to_vec(heap)?;
    let made = Vec::new(heap);
    Ok(Recorder {
        numbers,
        made,
        lasts,
    })
}

fn compare_case(rt: &impl Abort, heap: Global, case: &Case) -> Result<(), Fail> {
    let mut device = device_with(heap, &case.store, case.lasts)?;
    let done = reserve_in(3, &mut device);
    let made = pairs(heap, &device.made)?;
    assert_eq!(rt;
        (done, made.as_slice(), device.numbers.as_slice()),
        (case.done, case.writes, case.left.as_slice())
    );
    Ok(())
}

#[test]
fn writes_in_their_order(rt: HostRuntime) -> Result<(), Fail> {
    for case in CASES {
        compare_case(&rt, rt.alloc(), case)?;
    }
    Ok(())
}
