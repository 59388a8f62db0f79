// The sheet command on the file of sheet_run with its last byte lost: refusal 13.
#![tactic(auto)]

use std::io;

fn main(rt: HostRuntime) -> io::Result<()> {
    sheet_command::program::run(&mut rt.stdin(), &rt)
}
