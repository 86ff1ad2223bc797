// Hashes as much as each line of standard input says, and prints a digest for each and never a time: bench/speed.py takes the time from outside.
//     blocks N: the hash value after compressing one block N times
//     bytes N: the SHA-256 of N bytes, taken in as a stream
//     looks N: how many times a signature is accepted that is looked at N times, in turn for the bits that it signs and for others; and the root
// A line that is none of these is answered by `?`.
#![tactic(auto)]

mod job;
mod looks;
mod work;

use job::{Job, read_job};
use looks::looks;
use sha256::RowSha256;
use std::io;
use std::io::{BufRead, BufReader};
use work::{compress_again, digest_of_bytes, pattern};

fn answer(rt: &HostRuntime, line: &[u8]) -> io::Result<()> {
    match str::from_utf8(line).ok().and_then(read_job) {
        Some(Job::Blocks(count)) => {
            for word in compress_again(&pattern(), count) {
                print!(rt; "{word:08x}")?;
            }
        }
        Some(Job::Bytes(count)) => {
            for byte in digest_of_bytes(&pattern(), count) {
                print!(rt; "{byte:02x}")?;
            }
        }
        Some(Job::Looks(count)) => match looks::<RowSha256>(count) {
            Ok((root, taken)) => print!(rt; "{taken} {root}")?,
            Err(refusal) => print!(rt; "{refusal}")?,
        },
        None => print!(rt; "?")?,
    }
    println!(rt; "")
}

fn main(rt: HostRuntime) -> io::Result<()> {
    let input = BufReader::new(rt.alloc(), rt.stdin())?;
    for line in input.split(rt.alloc(), b'\n') {
        answer(&rt, &line?)?;
    }
    Ok(())
}
