// The sheet of an example file. A program is run on one input, so that the refusal is a program of its own.
#![tactic(auto)]

use std::io;

fn main(rt: HostRuntime) -> io::Result<()> {
    sheet_command::program::run(&mut rt.stdin(), &rt)
}
