// The lock beside a store's file: while it is there no other run opens the store.
ghost use Rattle.std.specs.Prelude.{◌≡◌, string_bytes, MatchResult};
ghost use Rattle.store_files.specs.Files.{lock_path, IfLocked};

use crate::problem::Problem;
use std::fs;
use std::fs::{File, Files};
use std::io::{ErrorKind, Write};

// A lock file that this process made.
#[derive(Drop)]
pub struct Lock {
    path: String,
}

impl Lock {
    // Makes the lock file, with a text in it that says who has it; refuses where it is there.
    pub fn take<R: Files + AllocGlobal>(rt: &R, store: &str, owner: u32) -> Result<Lock, Problem>
        ensures { MatchResult result (λ l. string_bytes l.path ≡ lock_path store.now) (λ p. IfLocked p (λ path. path ≡ lock_path store.now)) }
    {
        let path = format!(in rt.alloc(); "{store}.lock")?;
        match File::create_new(rt, path.as_str()) {
            Ok(mut file) => {
                // Only for a person who finds the lock, so that a full disk does no harm.
                let _ = writeln!(file, "{owner}");
                Ok(Lock { path })
            }
            Err(error) if error.kind() == ErrorKind::AlreadyExists => Err(Problem::Locked(path)),
            Err(error) => Err(Problem::Io(error)),
        }
    }

    pub fn release<R: Files>(self, rt: &R) -> Result<(), Problem> {
        Ok(fs::remove_file(rt, self.path.as_str())?)
    }
}
