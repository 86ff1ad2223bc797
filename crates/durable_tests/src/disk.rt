// A simulated disk: what it holds for certain, the writes that it was asked for and did not acknowledge, the calls that were made to it, and the one that fails.
ghost use Rattle.std.specs.Prelude.{◌≡◌, false, ◌⊎◌, is_ok, OnOk};
ghost use Rattle.counter.specs.Cells.{left_by};
ghost use Rattle.durable_tests.specs.Simulated.{at};
ghost use Rattle.durable.specs.Disks.{with_pending, synced_if};

use counter::{NotWritten, Write};
use durable::Disk;
use std::alloc::Global;

// A call that was made to the disk.
#[derive(Clone, Copy, PartialEq, Debug)]
pub enum Call {
    Put(usize, u32),
    Sync,
}

// Which call fails, and, if it is a `put`, whether the write waits nevertheless.
#[derive(Clone, Copy, Debug)]
pub struct Failure {
    pub call: Option<usize>,
    pub waits: bool,
}

impl Failure {
    pub const NONE: Failure = Failure {
        call: None,
        waits: false,
    };
}

// What lasts when the process that asks the disk is gone, and what was seen of it.
#[derive(Drop)]
pub struct Memory {
    settled: [u32; 4],
    pending: Vec<Write>,
    calls: Vec<Call>,
    failure: Failure,
}

// Numbers, after writes were made to them in their order.
fn written(numbers: [u32; 4], writes: &[Write]) -> [u32; 4]
    ensures { result ≡ left_by writes.now numbers }
{
    let mut numbers = numbers;
    for write in writes {
        if write.place < numbers.len() {
            numbers[write.place] = write.value;
        }
    }
    numbers
}

impl Memory {
    pub fn holding(heap: Global, settled: [u32; 4], failure: Failure) -> Memory {
        Memory {
            settled,
            pending: Vec::new(heap),
            calls: Vec::new(heap),
            failure,
        }
    }

    pub fn calls(&self) -> &[Call] {
        &self.calls
    }

    // What a reader finds that begins anew, where the writes that wait were made or not.
    pub fn found(&self, made: bool) -> [u32; 4] {
        if made {
            written(self.settled, &self.pending)
        } else {
            self.settled
        }
    }

    // A call is made; whether it fails.
    fn called(&mut self, call: Call) -> bool
        ensures { at self.new.settled self.new.pending.items ≡ at self.old.settled self.old.pending.items }
    {
        let fails = self.failure.call == Some(self.calls.len());
        self.calls.push(call).is_err() || fails
    }
}

// The disk is in the memory that lasts.
#[derive(Drop)]
pub struct SimulatedDisk<'a> {
    pub memory: &'a mut Memory,
}

impl Disk for SimulatedDisk<'_> {
    ghost sure = { false };

    ghost state = { λ d. at d.memory.now.settled d.memory.now.pending.items };

    fn numbers(&self) -> &[u32] {
        &self.memory.settled
    }

    fn put(&mut self, place: usize, value: u32) -> Result<(), NotWritten> {
        if self.memory.called(Call::Put(place, value)) {
            if self.memory.failure.waits {
                let _ = self.memory.pending.push(Write { place, value });
            }
            return Err(NotWritten);
        }
        match self.memory.pending.push(Write { place, value }) {
            Ok(()) => Ok(()),
            Err(_) => Err(NotWritten),
        }
    }

    fn sync(&mut self) -> Result<(), NotWritten> {
        if self.memory.called(Call::Sync) {
            return Err(NotWritten);
        }
        self.memory.settled = written(self.memory.settled, &self.memory.pending);
        self.memory.pending.clear();
        Ok(())
    }
}
