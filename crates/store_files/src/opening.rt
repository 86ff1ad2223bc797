// Opening a store's file, and making a new one. Who calls these has the lock.
ghost use Rattle.std.specs.Prelude.{◌≡◌, [], IfOk};

use crate::file::StoreFile;
use crate::format::new_store;
use crate::problem::Problem;
use std::fs::{File, OpenOptions, TryLockError};
use std::io::{ErrorKind, Write};
use std::os::fd::AsRawFd;
use std::path::Path;
use std::{fs, io};

// Opens the store in a file.
pub fn open(rt: &HostRuntime, path: &str) -> Result<StoreFile<File>, Problem>
    ensures { IfOk result (λ f. (f.waits.writes ≡ []) × (f.latest ≡ f.settled)) }
{
    let file = OpenOptions::new().read(true).write(true).open(rt, path)?;
    // What is meant for a standard stream must not land in the store.
    if file.as_raw_fd() <= 2 {
        return Err(Problem::StandardStream);
    }
    match file.try_lock() {
        Ok(()) => {}
        Err(TryLockError::WouldBlock) => return Err(Problem::Open),
        Err(TryLockError::Error(error)) => return Err(Problem::Io(error)),
    }
    sync_folder(rt, path)?;
    StoreFile::read(file)
}

// Makes a file with a new store; refuses where there is one. One that cannot be written whole is removed.
pub fn create(rt: &HostRuntime, path: &str) -> Result<(), Problem> {
    let mut file = match File::create_new(rt, path) {
        Ok(file) => file,
        Err(error) if error.kind() == ErrorKind::AlreadyExists => return Err(Problem::Exists),
        Err(error) => return Err(Problem::Io(error)),
    };
    let written = write_new(rt, path, &mut file);
    if written.is_err() {
        let _ = fs::remove_file(rt, path);
    }
    Ok(written?)
}

fn write_new(rt: &HostRuntime, path: &str, file: &mut File) -> io::Result<()> {
    file.write_all(&new_store())?;
    file.sync_all()?;
    sync_folder(rt, path)
}

// Makes the name of a file durable: where it were lost with the power, a new store could be made in its place.
fn sync_folder(rt: &HostRuntime, path: &str) -> io::Result<()> {
    let folder = match Path::new(path).parent() {
        Some(folder) if !folder.as_str().is_empty() => folder.as_str(),
        _ => ".",
    };
    File::open(rt, folder)?.sync_all()
}
