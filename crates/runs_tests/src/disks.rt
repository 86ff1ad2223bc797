// Runs on a store that lies on a disk of which one call fails, each call in turn: what is printed, and which key comes next where another run begins with what is found.
ghost use Rattle.std.specs.Prelude.{◌≡◌, false, []};
ghost use Rattle.std.specs.Option.{option_to_list};
ghost use Rattle.counter.specs.Cells.{left_by};

use counter::{NotWritten, Write};
use durable::{Disk, OnDisk};
use runs::run_on_disk;
use std::alloc::{AllocError, Global};
use std::process::Abort;
use std::str::from_utf8;
use std::test::Fail;

// What a disk holds, and the write that waits, if one does.
#[derive(Drop)]
struct Medium {
    numbers: [u32; 4],
    waiting: Option<Write>,
    calls: u64,
    // Which call fails, from 1 on; 0: none.
    failing: u64,
}

impl Medium {
    // Whether a call goes well.
    fn call(&mut self) -> Result<(), NotWritten>
        ensures { (self.new.numbers ≡ self.old.numbers) × (self.new.waiting ≡ self.old.waiting) }
    {
        self.calls = self.calls.saturating_add(1);
        if self.calls == self.failing {
            return Err(NotWritten);
        }
        Ok(())
    }

    // Makes the write that waits.
    fn settle(&mut self)
        ensures numbers { self.new.numbers ≡ left_by (option_to_list self.old.waiting) self.old.numbers }
        ensures none { option_to_list self.new.waiting ≡ [] }
    {
        let Some(write) = self.waiting else {
            return;
        };
        self.waiting = None;
        if write.place < 4 {
            self.numbers[write.place] = write.value;
        }
    }
}

// A disk on a medium that is there when the disk is gone.
#[derive(Drop)]
struct LentMedium<'a> {
    medium: &'a mut Medium,
}

impl<'a> Disk for LentMedium<'a> {
    ghost sure = { false };

    ghost state = { λ d. record { settled = d.medium.now.numbers; pending = option_to_list d.medium.now.waiting } };

    fn numbers(&self) -> &[u32] {
        &self.medium.numbers
    }

    // A call that fails asks for the write all the same.
    fn put(&mut self, place: usize, value: u32) -> Result<(), NotWritten> {
        if self.medium.waiting.is_some() {
            return Err(NotWritten);
        }
        self.medium.waiting = Some(Write { place, value });
        self.medium.call()
    }

    fn sync(&mut self) -> Result<(), NotWritten> {
        self.medium.call()?;
        self.medium.settle();
        Ok(())
    }
}

// What is printed in a run that begins with what is found; nothing where the disk fails before.
fn run_from(heap: Global, medium: &mut Medium, typed: &str) -> Result<Vec<u8>, Fail> {
    let mut output = Vec::new(heap);
    if let Ok(mut keeper) = OnDisk::new(LentMedium { medium }) {
        run_on_disk(heap, &mut keeper, typed.as_bytes(), &mut output)?;
    }
    Ok(output)
}

// The lines that are printed, but of a signature the key alone.
fn with_keys_alone(heap: Global, printed: &str) -> Result<String, AllocError> {
    let mut lines = String::new(heap);
    for line in printed.lines() {
        if !line.starts_with("parts ")
            && !line.starts_with("others ")
            && !line.starts_with("path")
        {
            lines.push_str(line)?;
            lines.push('\n')?;
        }
    }
    Ok(lines)
}

fn compare_printed(
    rt: &impl Abort,
    heap: Global,
    medium: &mut Medium,
    typed: &str,
    expected: &str,
) -> Result<(), Fail> {
    let failing = medium.failing;
    let output = run_from(heap, medium, typed)?;
    let lines = with_keys_alone(heap, from_utf8(&output)?)?;
    assert_eq!(rt; lines.as_str(), expected, "call {failing} fails");
    Ok(())
}

const TYPED: &'static str = "levels 2 bits 1 seed 17\n\
    store 9 66 9 66\n\
    sign a deed\n\
    state\n\
    sign a deed\n\
    power 1\n\
    sign a deed\n\
    state\n\
    store\n\
    sign a deed\n";

// The last of the calls for what is typed.
const CALLS: u64 = 15;

// Which call is the first to fail in turn and which the last, what is printed, and what another run prints for one `sign`: where the write that waits was not made, and where it was.
const FAILING: &'static [(u64, u64, &'static str, [&'static str; 2])] = &[
    (1, 1, "", ["key 0\n", "key 0\n"]),
    (
        2,
        3,
        "5 1\ncut\nstore 0 3 0 3\ncut\ncut\nstore 0 3 0 3\n5 8\ncut\n",
        ["key 0\n", "key 0\n"],
    ),
    (
        4,
        5,
        "5 1\ncut\nstore 1 3 0 3\ncut\ncut\nstore 1 3 0 3\n5 8\ncut\n",
        ["key 0\n", "key 1\n"],
    ),
    (
        6,
        7,
        "5 1\nkey 0\nstore 1 10 0 3\ncut\ncut\nstore 1 10 0 3\n5 8\ncut\n",
        ["key 1\n", "key 1\n"],
    ),
    (
        8,
        9,
        "5 1\nkey 0\nstore 1 10 0 3\ncut\ncut\nstore 1 10 2 3\n5 8\ncut\n",
        ["key 1\n", "key 2\n"],
    ),
    (
        10,
        11,
        "5 1\nkey 0\nstore 1 10 0 3\nkey 1\ncut\nstore 1 10 2 17\n5 8\ncut\n",
        ["key 2\n", "key 2\n"],
    ),
    (
        12,
        13,
        "5 1\nkey 0\nstore 1 10 0 3\nkey 1\ncut\nstore 3 10 2 17\n5 8\ncut\n",
        ["key 2\n", "key 2\n"],
    ),
    (
        14,
        15,
        "5 1\nkey 0\nstore 1 10 0 3\nkey 1\ncut\nstore 3 10 2 17\n5 8\ncut\n",
        ["key 2\n", "key 3\n"],
    ),
    (
        16,
        16,
        "5 1\nkey 0\nstore 1 10 0 3\nkey 1\ncut\nstore 3 10 2 17\n5 8\nkey 2\n",
        ["key 3\n", "key 3\n"],
    ),
];

// Another run, on a disk of which no call fails.
fn compare_again(
    rt: &impl Abort,
    heap: Global,
    numbers: [u32; 4],
    expected: &str,
) -> Result<(), Fail> {
    let mut medium = Medium {
        numbers,
        waiting: None,
        calls: 0,
        failing: 0,
    };
    let typed = "levels 2 bits 1 seed 17\nsign a deed\n";
    compare_printed(rt, heap, &mut medium, typed, expected)
}

fn compare_failing(
    rt: &impl Abort,
    heap: Global,
    failing: u64,
    expected: &str,
    keys: [&str; 2],
) -> Result<(), Fail> {
    let mut medium = Medium {
        numbers: [0, 3, 0, 3],
        waiting: None,
        calls: 0,
        failing,
    };
    compare_printed(rt, heap, &mut medium, TYPED, expected)?;
    // Once a call has failed the disk is asked for nothing more.
    assert_eq!(rt; medium.calls, failing.min(CALLS));
    compare_again(rt, heap, medium.numbers, keys[0])?;
    medium.settle();
    compare_again(rt, heap, medium.numbers, keys[1])
}

#[test]
fn a_disk_that_fails(rt: HostRuntime) -> Result<(), Fail> {
    for (first, last, expected, keys) in FAILING {
        for failing in *first..=*last {
            compare_failing(&rt, rt.alloc(), failing, expected, *keys)?;
        }
    }
    Ok(())
}
