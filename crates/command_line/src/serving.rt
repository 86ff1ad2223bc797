// What the program does for each way of asking for it.
ghost use Rattle.std.specs.Prelude.{OnOk};
ghost use Rattle.command_line.specs.Serving.{RanWell};

use crate::arguments::{Invocation, read_arguments};
use crate::help::HELP;
use durable::OnDisk;
use runs::{run, run_on_disk};
use std::io::{BufRead, BufReader, Stdin, Write};
use std::process::ExitCode;
use std::{env, io, process};
use store_files::{Lock, Problem, create, open};

// A run on the store in a file. Who calls this has the lock.
fn run_locked<R: BufRead + Drop, W: Write>(
    rt: &HostRuntime,
    path: &str,
    reader: R,
    writer: &mut W,
) -> Result<(), Problem>
    ensures { OnOk result (RanWell (R.remaining reader) (W.contents writer.old) (W.contents writer.new)) }
{
    let mut store = OnDisk::new(open(rt, path)?)?;
    run_on_disk(rt.alloc(), &mut store, reader, writer)?;
    match store.disk().failure() {
        Some(error) => Err(Problem::Io(error)),
        None => Ok(()),
    }
}

// The same while no other run has the store.
pub fn run_in_file<R: BufRead + Drop, W: Write>(
    rt: &HostRuntime,
    path: &str,
    reader: R,
    writer: &mut W,
) -> Result<(), Problem>
    ensures { OnOk result (RanWell (R.remaining reader) (W.contents writer.old) (W.contents writer.new)) }
{
    let lock = Lock::take(rt, path, process::id(rt.process()))?;
    let ran = run_locked(rt, path, reader, writer);
    let released = lock.release(rt);
    ran?;
    released
}

// Makes a file with a new store, while no other run has it.
pub fn make_file(rt: &HostRuntime, path: &str) -> Result<(), Problem> {
    let lock = Lock::take(rt, path, process::id(rt.process()))?;
    let made = create(rt, path);
    let released = lock.release(rt);
    made?;
    released
}

// The standard input, read line by line.
fn input(rt: &HostRuntime) -> io::Result<BufReader<Stdin>> {
    Ok(BufReader::new(rt.alloc(), rt.stdin())?)
}

// Does what the program is asked for.
fn serve(rt: &HostRuntime, invocation: &Invocation) -> Result<(), Problem> {
    match invocation {
        Invocation::InMemory => Ok(run(rt.alloc(), input(rt)?, &mut rt.stdout())?),
        Invocation::InFile(path) => run_in_file(rt, path, input(rt)?, &mut rt.stdout()),
        Invocation::New(path) => make_file(rt, path),
        Invocation::Help => Ok(print!(rt; "{HELP}")?),
    }
}

// The arguments behind the program's name.
fn arguments(rt: &HostRuntime) -> io::Result<Vec<String>> {
    let mut words = Vec::new(rt.alloc());
    for word in env::args(rt)?.skip(1) {
        words.push(word)?;
    }
    Ok(words)
}

// The program, as it is asked for; where something is wrong it says so on the standard error.
pub fn start(rt: &HostRuntime) -> io::Result<ExitCode> {
    let words = arguments(rt)?;
    let Some(invocation) = read_arguments(rt.alloc(), &words)? else {
        eprintln!(rt; "kachumpe: not asked for anything known: see kachumpe --help")?;
        return Ok(ExitCode::FAILURE);
    };
    match serve(rt, &invocation) {
        Ok(()) => Ok(ExitCode::SUCCESS),
        Err(problem) => {
            match invocation.path() {
                Some(path) => eprintln!(rt; "kachumpe: {path}: {problem}")?,
                None => eprintln!(rt; "kachumpe: {problem}")?,
            }
            Ok(ExitCode::FAILURE)
        }
    }
}
