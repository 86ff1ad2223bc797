// Reads lines to the end, asks the program, and prints what it answers.
ghost use Rattle.std.specs.Prelude.{◌≡◌, ℕ, ◌<◌, false, ◌⊎◌, List, [], length, IfOk, IfSome, OnOk, MatchOption, string_bytes};
ghost use Rattle.std.specs.Option.{option_map};
ghost use Rattle.std.specs.Io.BufRead.{first_piece, DropsThrough};
ghost use Rattle.std.specs.Io.KnownBytes.{IsAtEnd};
ghost use Rattle.std.specs.IoError.{error_kind};
ghost use Rattle.runs.specs.Turns.{bytes_printed};
ghost use Rattle.runs.specs.Runs.{Gone, AppendsFront, Ended, EndedInMemory, KeptOnDisk, KeptAll, CountKept, NotBegun};
ghost use Rattle.counter.specs.Cells.{Found};
ghost use Rattle.counter.specs.Reserving.{KeepsCount};

use crate::program::Program;
use counter::{InMemory, Keeper};
use durable::{Disk, OnDisk};
use std::alloc::Global;
use std::io;
use std::io::{BufRead, ErrorKind, Write};

// A count of lines, since an input need not end.
const MOST_LINES: u64 = u64::MAX;

// How many bytes are gone after a write of some: none where the writer was interrupted, and an error where it took none.
fn gone(written: io::Result<usize>) -> io::Result<usize>
    ensures { Gone (λ e. error_kind e ≡ ErrorKind.Interrupted) (λ e. error_kind e ≡ ErrorKind.WriteZero) written result }
{
    match written {
        Ok(0) => Err(ErrorKind::WriteZero.into()),
        Err(error) if error.kind() == ErrorKind::Interrupted => Ok(0),
        written => written,
    }
}

// Writes bytes, or a front part of them where writing fails. No `write_all`, whose contract does not say what was written then.
fn write<W: Write>(writer: &mut W, bytes: &[u8]) -> io::Result<()>
    ensures { (left : List ℕ) × AppendsFront (W.contents writer.old) (W.contents writer.new) bytes.now left × OnOk result (left ≡ []) }
{
    let mut left = bytes;
    // A count, since a writer may be interrupted again and again.
    for _ in 0..u64::MAX {
        if left.is_empty() {
            return Ok(());
        }
        let count = gone(writer.write(left))?;
        left = &left[count..];
    }
    Err(ErrorKind::TimedOut.into())
}

// Prints a text, if there is one, and a newline.
fn print<W: Write>(writer: &mut W, text: Option<String>) -> io::Result<()>
    ensures { (left : List ℕ) × AppendsFront (W.contents writer.old) (W.contents writer.new) (bytes_printed (option_map string_bytes text)) left × OnOk result (left ≡ []) }
{
    let Some(mut text) = text else {
        return Ok(());
    };
    text.push('\n')?;
    write(writer, text.as_bytes())?;
    writer.flush()
}

// The input up to the next byte of that value, without it, or all that is left; none where nothing is. No `split`, which takes a third more instructions for a short line.
fn read_piece<R: BufRead>(heap: Global, reader: &mut R, end: u8) -> io::Result<Option<Vec<u8>>>
    ensures { IfOk result (λ o. MatchOption o (IsAtEnd (R.remaining reader.old)) (λ line. IfSome (R.remaining reader.old) (λ xs. (0 < length xs) × (line.items ≡ first_piece end xs)) × DropsThrough (R.remaining reader.old) (R.remaining reader.new) end)) }
{
    let mut piece = Vec::new(heap);
    if reader.read_until(end, &mut piece)? == 0 {
        return Ok(None);
    }
    if piece.last().copied() == Some(end) {
        let _ = piece.pop();
    }
    Ok(Some(piece))
}

// Takes the lines one by one, each answered before the next one is waited for, to the end of the input. The store is at first what it is known to hold where the keeper keeps it.
pub fn run_on<K: Keeper, R: BufRead + Drop, W: Write>(
    heap: Global,
    store: Vec<u32>,
    keeper: &mut K,
    mut reader: R,
    writer: &mut W,
) -> io::Result<()>
    ensures ended { Ended K.IN_MEMORY store.items (KeptOnDisk K.IN_MEMORY store.items (K.state keeper.old) (K.state keeper.new)) (R.remaining reader) (W.contents writer.old) (W.contents writer.new) result }
    ensures kept { CountKept K.IN_MEMORY store.items (K.state keeper.old) (K.state keeper.new) }
{
    let mut program = Program::new(heap, store);
    for _ in 0..MOST_LINES {
        let Some(line) = read_piece(heap, &mut reader, b'\n')? else {
            let text = program.finish(heap, keeper)?;
            return print(writer, text);
        };
        let text = program.take(heap, line, keeper)?;
        print(writer, text)?;
    }
    Err(ErrorKind::TimedOut.into())
}

// The same with the store that a disk holds, where nothing waits for it.
pub fn run_on_disk<D: Disk + Drop, R: BufRead + Drop, W: Write>(
    heap: Global,
    store: &mut OnDisk<D>,
    reader: R,
    writer: &mut W,
) -> io::Result<()>
    ensures ended { Ended false (D.state store.old.disk).settled (KeptAll (D.state store.old.disk) (D.state store.new.disk)) (R.remaining reader) (W.contents writer.old) (W.contents writer.new) result ⊎ NotBegun (W.contents writer.old) (W.contents writer.new) (D.state store.old.disk) (D.state store.new.disk) result }
    ensures kept { (D.state store.old.disk).pending ≡ [] → (m₁ : List ℕ) → Found (D.state store.new.disk) m₁ → KeepsCount (D.state store.old.disk).settled m₁ }
{
    let numbers = Vec::from_slice(heap, store.disk().numbers())?;
    run_on::<OnDisk<D>, R, W>(heap, numbers, store, reader, writer)
}

// The same with a store in memory alone, which has no numbers at first.
pub fn run<R: BufRead + Drop, W: Write>(heap: Global, reader: R, writer: &mut W) -> io::Result<()>
    ensures { EndedInMemory (R.remaining reader) (W.contents writer.old) (W.contents writer.new) result }
{
    run_on(heap, Vec::new(heap), &mut InMemory, reader, writer)
}
