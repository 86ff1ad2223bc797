// Files of the system: a new store, its lock, what is no store, and keys that are reserved in a file.
use crate::folder::{new_folder, path_in};
use counter::{Done, LentCells, reserve_in};
use durable::{Disk, OnDisk};
use std::fs;
use std::test::Fail;
use store_files::{Lock, Problem, create, open};

const NEW: &[u8] = &[0, 0, 0, 0, 0, 0, 0, 3, 0, 0, 0, 0, 0, 0, 0, 3];

#[test]
fn a_new_store_is_made_once(rt: HostRuntime) -> Result<(), Fail> {
    let folder = new_folder(&rt, "new")?;
    let path = path_in(&rt, &folder, "store")?;
    assert!(rt; create(&rt, &path).is_ok());
    assert_eq!(rt; fs::read(&rt, path.as_str())?.as_slice(), NEW);
    fs::write(&rt, path.as_str(), b"kept".as_slice())?;
    assert!(rt; matches!(create(&rt, &path), Err(Problem::Exists)));
    assert_eq!(rt;
        fs::read(&rt, path.as_str())?.as_slice(),
        b"kept".as_slice()
    );
    fs::remove_dir_all(&rt, folder.as_str())?;
    Ok(())
}

// Whether a lock was taken, and is released.
fn released(rt: &HostRuntime, taken: Result<Lock, Problem>) -> bool {
    match taken {
        Ok(lock) => lock.release(rt).is_ok(),
        Err(_) => false,
    }
}

// Whether no lock was taken, since that file is there.
fn is_refused(taken: Result<Lock, Problem>, lock: &str) -> bool {
    match taken {
        Err(Problem::Locked(path)) => path.as_str() == lock,
        _ => false,
    }
}

#[test]
fn a_lock_is_taken_by_one(rt: HostRuntime) -> Result<(), Fail> {
    let folder = new_folder(&rt, "lock")?;
    let path = path_in(&rt, &folder, "store")?;
    let beside = path_in(&rt, &folder, "store.lock")?;
    let lock = Lock::take(&rt, &path, 17);
    assert_eq!(rt;
        fs::read(&rt, beside.as_str())?.as_slice(),
        b"17\n".as_slice()
    );
    assert!(rt; is_refused(Lock::take(&rt, &path, 18), &beside));
    assert_eq!(rt;
        fs::read(&rt, beside.as_str())?.as_slice(),
        b"17\n".as_slice()
    );
    assert!(rt; released(&rt, lock));
    assert!(rt; !fs::exists(&rt, beside.as_str())?);
    assert!(rt; Lock::take(&rt, &path, 18).is_ok());
    fs::remove_dir_all(&rt, folder.as_str())?;
    Ok(())
}

#[test]
fn what_is_no_store_is_not_opened(rt: HostRuntime) -> Result<(), Fail> {
    let folder = new_folder(&rt, "lengths")?;
    let path = path_in(&rt, &folder, "store")?;
    assert!(rt;
        matches!(open(&rt, &path), Err(Problem::Io(error)) if error.kind() == std::io::ErrorKind::NotFound)
    );
    for length in [0, 15, 17] {
        fs::write(&rt, path.as_str(), &[0; 17][..length])?;
        assert!(rt;
            matches!(open(&rt, &path), Err(Problem::Length(found)) if found == length as u64)
        );
        assert_eq!(rt; fs::read(&rt, path.as_str())?.len(), length);
    }
    fs::remove_dir_all(&rt, folder.as_str())?;
    Ok(())
}

// Opens the store, and reserves a key of a tree of three levels; the store is closed then.
fn next_key(rt: &HostRuntime, path: &str) -> Result<Done, Problem> {
    let file = open(rt, path)?;
    let mut store = [0; 4];
    store.copy_from_slice(file.numbers());
    let mut keeper = OnDisk::new(file)?;
    Ok(reserve_in(3, &mut LentCells::new(&mut store, u64::MAX, &mut keeper)))
}

#[test]
fn keys_are_reserved_in_the_file(rt: HostRuntime) -> Result<(), Fail> {
    let folder = new_folder(&rt, "keys")?;
    let path = path_in(&rt, &folder, "store")?;
    assert!(rt; create(&rt, &path).is_ok());
    for key in 0..8 {
        assert!(rt; matches!(next_key(&rt, &path), Ok(Done::Key(given)) if given == key));
    }
    assert!(rt; matches!(next_key(&rt, &path), Ok(Done::Empty)));
    assert_eq!(rt;
        fs::read(&rt, path.as_str())?.as_slice(),
        [0, 0, 0, 7, 0, 0, 0, 52, 0, 0, 0, 8, 0, 0, 0, 59].as_slice()
    );
    fs::remove_dir_all(&rt, folder.as_str())?;
    Ok(())
}

#[test]
fn an_open_store_is_not_opened_again(rt: HostRuntime) -> Result<(), Fail> {
    let folder = new_folder(&rt, "open")?;
    let path = path_in(&rt, &folder, "store")?;
    assert!(rt; create(&rt, &path).is_ok());
    let first = open(&rt, &path);
    assert!(rt; first.is_ok());
    assert!(rt; matches!(open(&rt, &path), Err(Problem::Open)));
    drop(first);
    assert!(rt; open(&rt, &path).is_ok());
    fs::remove_dir_all(&rt, folder.as_str())?;
    Ok(())
}
