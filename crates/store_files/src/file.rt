// A file of sixteen bytes as the disk that a store lies on.
ghost use Rattle.std.specs.Prelude.{◌≡◌, false, [], is_ok, IfOk};
ghost use Rattle.counter.specs.Cells.{left_by, still};
ghost use Rattle.store_files.specs.Format.{file_bytes};

use crate::format::{cell_bytes, read_numbers};
use crate::problem::Problem;
use counter::{History, NotWritten, Write};
use durable::Disk;
use std::fs::OpenFile;
use std::io;
use std::os::unix::fs::FileExt;

// An open file that holds a store.
#[derive(Drop)]
pub struct StoreFile<F: FileExt + OpenFile + Drop> {
    file: F,
    // the numbers that it holds for certain, and those that it holds once all that waits is made
    settled: [u32; 4],
    latest: [u32; 4],
    // the writes that were asked for since the file was last made durable
    waits: History,
    // why the file failed, where it has
    failure: Option<io::Error>,
    ghost waited: { latest ≡ left_by waits.writes settled },
}

impl<F: FileExt + OpenFile + Drop> StoreFile<F> {
    // Reads the store. A file of any other length holds none.
    pub fn read(file: F) -> Result<StoreFile<F>, Problem>
        ensures { IfOk result (λ f. (f.waits.writes ≡ []) × (f.latest ≡ f.settled)) }
    {
        let len = file.metadata()?.len();
        if len != 16 {
            return Err(Problem::Length(len));
        }
        let mut bytes = [0; 16];
        file.read_exact_at(&mut bytes, 0)?;
        let numbers = read_numbers(&bytes);
        Ok(StoreFile {
            file,
            settled: numbers,
            latest: numbers,
            waits: History::new(),
            failure: None,
        })
    }

    // Why the file failed, where it has.
    pub fn failure(&self) -> Option<io::Error>
        ensures { result ≡ self.now.failure }
    {
        self.failure
    }

    // Keeps why a call of the file failed.
    fn note(&mut self, called: io::Result<()>) -> Result<(), NotWritten>
        ensures answer { is_ok result ≡ is_ok called }
        ensures same { (self.new.settled ≡ self.old.settled) × (self.new.latest ≡ self.old.latest) × (self.new.waits ≡ self.old.waits) }
    {
        match called {
            Ok(()) => Ok(()),
            Err(error) => {
                self.failure = Some(error);
                Err(NotWritten)
            }
        }
    }
}

impl<F: FileExt + OpenFile + Drop> Disk for StoreFile<F> {
    ghost sure = { false };

    ghost state = { λ f. record { settled = f.settled; pending = f.waits.writes } };

    fn numbers(&self) -> &[u32] {
        &self.settled
    }

    // What is noted here of the write, the next line asks the file for.
    fn put(&mut self, place: usize, value: u32) -> Result<(), NotWritten> {
        if place >= 4 {
            return Err(NotWritten);
        }
        self.latest[place] = value;
        self.waits = self.waits.then(&Write { place, value });
        let cell = cell_bytes(place, value);
        let written = self.file.write_all_at(&cell.bytes, cell.at);
        self.note(written)
    }

    fn sync(&mut self) -> Result<(), NotWritten> {
        let synced = self.file.sync_data();
        self.note(synced)?;
        self.settled = self.latest;
        self.waits = History::new();
        Ok(())
    }
}
