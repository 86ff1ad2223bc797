// Why a store's file is not opened or made.
ghost use Rattle.std.specs.Prelude.{◌≡◌};
ghost use Rattle.store_files.specs.Files.{problem_spelled, IsIo};
ghost use Rattle.store_files.specs.declared.problem.Problem.TheVariants.{Io, NotDurable};

use counter::NotWritten;
use std::alloc::AllocError;
use std::{fmt, io};

#[derive(Drop)]
pub enum Problem {
    // The lock beside the file is there: its path.
    Locked(String),
    // A new store was asked for, and there is such a file.
    Exists,
    // Another process has the file open, though its lock is gone.
    Open,
    // The file has so many bytes, which are not sixteen.
    Length(u64),
    // A standard stream is closed, so that the file would be opened as that stream.
    StandardStream,
    // The file was opened and could not be made durable as it is.
    NotDurable,
    Io(io::Error),
}

impl From<io::Error> for Problem {
    ghost from_gives = { λ e p. p ≡ Io e };

    fn from(error: io::Error) -> Problem {
        Problem::Io(error)
    }
}

impl From<AllocError> for Problem {
    ghost from_gives = { λ _ p. IsIo p };

    fn from(error: AllocError) -> Problem {
        Problem::Io(io::Error::from(error))
    }
}

impl From<NotWritten> for Problem {
    ghost from_gives = { λ _ p. p ≡ NotDurable };

    fn from(_error: NotWritten) -> Problem {
        Problem::NotDurable
    }
}

impl fmt::Display for Problem {
    ghost output = { problem_spelled };

    fn fmt<W: fmt::Write>(&self, f: &mut fmt::Formatter<W>) -> fmt::Result {
        match self {
            Problem::Locked(lock) => write!(
                f,
                "{lock} is there: another run has the store, or one that was cut off left its lock"
            ),
            Problem::Exists => f.write_str("there is such a file already"),
            Problem::Open => f.write_str("another run has the store, though its lock is gone"),
            Problem::Length(bytes) => write!(f, "a store has 16 bytes, and this file has {bytes}"),
            Problem::StandardStream => f.write_str("a standard stream is closed"),
            Problem::NotDurable => f.write_str("the file cannot be made durable"),
            Problem::Io(error) => write!(f, "{error}"),
        }
    }
}
