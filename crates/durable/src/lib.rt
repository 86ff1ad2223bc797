// The store on a disk, by what the disk is asked: each number of it is written and made durable before it counts as written.
#![tactic(auto)]

mod disk;
mod on_disk;

pub use disk::Disk;
pub use on_disk::OnDisk;
