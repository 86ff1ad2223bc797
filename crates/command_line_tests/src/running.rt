// Runs of the program on a store in a file, one after the other.
use crate::folder::{new_folder, path_in};
use command_line::{make_file, run_in_file};
use std::fs;
use std::io::{ErrorKind, Write};
use std::test::Fail;
use store_files::Problem;

const LEVELS: &str = "levels 2 bits 1 seed 17\n";

// A run with these lines behind `levels`: what is printed, of a signature its key alone.
fn printed(rt: &HostRuntime, path: &str, lines: &str) -> Result<String, Problem> {
    let typed = format!(in rt.alloc(); "{LEVELS}{lines}")?;
    let mut output = Vec::new(rt.alloc());
    run_in_file(rt, path, typed.as_bytes(), &mut output)?;
    let mut keys = String::new(rt.alloc());
    for line in String::from_utf8_lossy(rt.alloc(), &output)?.lines() {
        if !line.starts_with("parts") && !line.starts_with("others") && !line.starts_with("path") {
            keys.push_str(line)?;
            keys.push('\n')?;
        }
    }
    Ok(keys)
}

// Whether a run ended well, and printed just that.
fn is_printed(ran: Result<String, Problem>, expected: &str) -> bool {
    match ran {
        Ok(text) => text.as_str() == expected,
        Err(_) => false,
    }
}

// Whether nothing was done, since the lock is there.
fn is_locked<T: Drop>(done: Result<T, Problem>) -> bool {
    match done {
        Err(Problem::Locked(_)) => true,
        _ => false,
    }
}

#[test]
fn the_count_goes_on_from_run_to_run(rt: HostRuntime) -> Result<(), Fail> {
    let folder = new_folder(&rt, "runs")?;
    let path = path_in(&rt, &folder, "store")?;
    let lock = path_in(&rt, &folder, "store.lock")?;
    assert!(rt; make_file(&rt, &path).is_ok());
    for (lines, expected) in [
        (
            "state\nsign a\nstate\n",
            "store 0 3 0 3\nkey 0\nstore 1 10 0 3\n",
        ),
        ("store 0 3 0 3\nsign a\nstore\n", "5 1\nkey 1\n5 3\n"),
        ("power 1\nsign a\nstate\n", "cut\nstore 3 10 2 17\n"),
        (
            "state\nsign a\nslot\n",
            "store 3 10 2 17\nkey 2\nslot 3 24\n",
        ),
        ("sign a\nsign b\n", "key 3\nall given\n"),
    ] {
        assert!(rt; is_printed(printed(&rt, &path, lines), expected), "{lines}");
        assert!(rt; !fs::exists(&rt, lock.as_str())?);
    }
    fs::remove_dir_all(&rt, folder.as_str())?;
    Ok(())
}

#[test]
fn nothing_is_done_while_the_lock_is_there(rt: HostRuntime) -> Result<(), Fail> {
    let folder = new_folder(&rt, "locked")?;
    let path = path_in(&rt, &folder, "store")?;
    let lock = path_in(&rt, &folder, "store.lock")?;
    fs::write(&rt, lock.as_str(), b"".as_slice())?;
    assert!(rt; is_locked(make_file(&rt, &path)));
    assert!(rt; !fs::exists(&rt, path.as_str())?);
    fs::remove_file(&rt, lock.as_str())?;
    assert!(rt; make_file(&rt, &path).is_ok());
    fs::write(&rt, lock.as_str(), b"".as_slice())?;
    assert!(rt; is_locked(printed(&rt, &path, "sign a\n")));
    fs::remove_file(&rt, lock.as_str())?;
    assert!(rt; matches!(make_file(&rt, &path), Err(Problem::Exists)));
    assert!(rt; is_printed(printed(&rt, &path, "sign a\n"), "key 0\n"));
    fs::remove_dir_all(&rt, folder.as_str())?;
    Ok(())
}

// A writer that takes nothing.
#[derive(Drop)]
struct FullWriter;

impl Write for FullWriter {
    fn write(&mut self, _buf: &[u8]) -> std::io::Result<usize> {
        Err(ErrorKind::StorageFull.into())
    }

    fn flush(&mut self) -> std::io::Result<()> {
        Ok(())
    }
}

#[test]
fn a_key_that_is_not_printed_is_used(rt: HostRuntime) -> Result<(), Fail> {
    let folder = new_folder(&rt, "full")?;
    let path = path_in(&rt, &folder, "store")?;
    assert!(rt; make_file(&rt, &path).is_ok());
    let typed = format!(in rt.alloc(); "{LEVELS}sign a\n")?;
    assert!(rt;
        matches!(run_in_file(&rt, &path, typed.as_bytes(), &mut FullWriter), Err(Problem::Io(error)) if error.kind() == ErrorKind::StorageFull)
    );
    assert!(rt; is_printed(printed(&rt, &path, "sign a\n"), "key 1\n"));
    fs::remove_dir_all(&rt, folder.as_str())?;
    Ok(())
}
