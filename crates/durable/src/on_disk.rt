// A store on a disk: each number of it is written and made durable before it counts as written.
ghost use Rattle.std.specs.Prelude.{◌≡◌, true, false, [], IfOk, IsOk};
ghost use Rattle.durable.specs.Disks.{synced_if};

use crate::disk::Disk;
use counter::{Keeper, NotWritten};

// Once a call of the disk has failed, nothing is assumed about what it holds, and it is asked for nothing more.
#[derive(Drop)]
pub struct OnDisk<D: Disk + Drop> {
    disk: D,
    failed: bool,
    ghost nothing_waits: { failed ≡ false → (D.state disk).pending ≡ [] },
    ghost for_a_cause: { failed ≡ true → D.sure ≡ false },
}

impl<D: Disk + Drop> OnDisk<D> {
    // What was asked of the disk before is made durable first, so that nothing waits.
    pub fn new(mut disk: D) -> Result<OnDisk<D>, NotWritten>
        ensures disk { IfOk result (λ k. D.state k.disk ≡ synced_if true (D.state disk)) }
        ensures sure { D.sure ≡ true → IsOk result }
    {
        disk.sync()?;
        Ok(OnDisk {
            disk,
            failed: false,
        })
    }

    pub fn disk(&self) -> &D
        ensures { result.now ≡ self.now.disk }
    {
        &self.disk
    }
}

impl<D: Disk + Drop> Keeper for OnDisk<D> {
    const IN_MEMORY: bool = false;

    ghost IN_MEMORY = { false };

    ghost sure = { D.sure };

    ghost state = { λ k. D.state k.disk };

    fn keep(&mut self, place: usize, value: u32) -> Result<(), NotWritten> {
        if self.failed {
            return Err(NotWritten);
        }
        // until the disk has acknowledged the write
        self.failed = true;
        self.disk.put(place, value)?;
        self.disk.sync()?;
        self.failed = false;
        Ok(())
    }

    ghost memory_is_sure = { λ e. absurd cc };
}
