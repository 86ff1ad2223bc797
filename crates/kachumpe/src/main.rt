// The program.
#![tactic(auto)]

use command_line::start;
use std::io;
use std::process::ExitCode;

fn main(rt: HostRuntime) -> io::Result<ExitCode> {
    start(&rt)
}
