// A file that takes few bytes at a time, and of which one call fails.
use crate::folder::{new_folder, path_in};
use counter::{Done, LentCells, reserve_in};
use durable::{Disk, OnDisk};
use std::cell::Cell;
use std::fs::{File, Metadata, OpenFile, OpenOptions};
use std::io::ErrorKind;
use std::os::unix::fs::FileExt;
use std::test::Fail;
use std::{fs, io};
use store_files::{Problem, StoreFile, create};

#[derive(Drop)]
struct FaultyFile {
    file: File,
    // how many bytes it takes at a time
    takes: usize,
    // how many more writes and syncs go well
    lasts: Cell<u64>,
}

impl FaultyFile {
    // Counts a call, or fails.
    fn call(&self) -> io::Result<()> {
        match self.lasts.get().checked_sub(1) {
            Some(left) => {
                self.lasts.set(left);
                Ok(())
            }
            None => Err(ErrorKind::StorageFull.into()),
        }
    }
}

impl FileExt for FaultyFile {
    fn read_at(&self, buf: &mut [u8], offset: u64) -> io::Result<usize> {
        self.file.read_at(buf, offset)
    }

    fn write_at(&self, buf: &[u8], offset: u64) -> io::Result<usize> {
        self.call()?;
        self.file
            .write_at(&buf[..buf.len().min(self.takes)], offset)
    }
}

impl OpenFile for FaultyFile {
    fn metadata(&self) -> io::Result<Metadata> {
        self.file.metadata()
    }

    fn set_len(&self, size: u64) -> io::Result<()> {
        self.file.set_len(size)
    }

    fn sync_all(&self) -> io::Result<()> {
        self.call()?;
        self.file.sync_all()
    }

    fn sync_data(&self) -> io::Result<()> {
        self.call()?;
        self.file.sync_data()
    }
}

// What a request for a key of a tree of three levels is answered, and why the file failed, where it did.
fn ask(
    rt: &HostRuntime,
    path: &str,
    takes: usize,
    lasts: u64,
) -> Result<(Done, Option<ErrorKind>), Problem> {
    let file = OpenOptions::new().read(true).write(true).open(rt, path)?;
    let lasts = Cell::new(lasts);
    let file = StoreFile::read(FaultyFile { file, takes, lasts })?;
    let mut store = [0; 4];
    store.copy_from_slice(file.numbers());
    let mut keeper = OnDisk::new(file)?;
    let done = reserve_in(3, &mut LentCells::new(&mut store, u64::MAX, &mut keeper));
    let failure = match keeper.disk().failure() {
        Some(error) => Some(error.kind()),
        None => None,
    };
    Ok((done, failure))
}

// Writes and syncs that go well, the answer, and the file then. One sync comes first, when the file is opened.
const CASES: &'static [(u64, Done, [u8; 16])] = &[
    (
        1,
        Done::Cut,
        [0, 0, 0, 0, 0, 0, 0, 3, 0, 0, 0, 0, 0, 0, 0, 3],
    ),
    (
        2,
        Done::Cut,
        [0, 0, 0, 1, 0, 0, 0, 3, 0, 0, 0, 0, 0, 0, 0, 3],
    ),
    (
        3,
        Done::Cut,
        [0, 0, 0, 1, 0, 0, 0, 3, 0, 0, 0, 0, 0, 0, 0, 3],
    ),
    (
        4,
        Done::Cut,
        [0, 0, 0, 1, 0, 0, 0, 10, 0, 0, 0, 0, 0, 0, 0, 3],
    ),
    (
        5,
        Done::Key(0),
        [0, 0, 0, 1, 0, 0, 0, 10, 0, 0, 0, 0, 0, 0, 0, 3],
    ),
];

#[test]
fn a_call_that_fails_is_a_cut(rt: HostRuntime) -> Result<(), Fail> {
    let folder = new_folder(&rt, "faulty")?;
    let path = path_in(&rt, &folder, "store")?;
    for (lasts, done, bytes) in CASES {
        let _ = fs::remove_file(&rt, path.as_str());
        assert!(rt; create(&rt, &path).is_ok());
        let failure = if *lasts < 5 {
            Some(ErrorKind::StorageFull)
        } else {
            None
        };
        assert!(rt;
            matches!(ask(&rt, &path, 4, *lasts), Ok(answer) if answer == (*done, failure)),
            "{lasts}"
        );
        assert_eq!(rt; fs::read(&rt, path.as_str())?.as_slice(), bytes.as_slice());
    }
    assert!(rt; matches!(ask(&rt, &path, 4, 0), Err(Problem::NotDurable)));
    fs::remove_dir_all(&rt, folder.as_str())?;
    Ok(())
}

#[test]
fn a_number_is_written_though_few_bytes_are_taken(rt: HostRuntime) -> Result<(), Fail> {
    let folder = new_folder(&rt, "short")?;
    let path = path_in(&rt, &folder, "store")?;
    for takes in 1..5 {
        let _ = fs::remove_file(&rt, path.as_str());
        assert!(rt; create(&rt, &path).is_ok());
        for key in 0..8 {
            assert!(rt;
                matches!(ask(&rt, &path, takes, u64::MAX), Ok(answer) if answer == (Done::Key(key), None))
            );
        }
        assert_eq!(rt;
            fs::read(&rt, path.as_str())?.as_slice(),
            [0, 0, 0, 7, 0, 0, 0, 52, 0, 0, 0, 8, 0, 0, 0, 59].as_slice()
        );
    }
    fs::remove_dir_all(&rt, folder.as_str())?;
    Ok(())
}
