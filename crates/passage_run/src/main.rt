// The program passage on a worked example: two records, one of which lapses.
// A program is run on one input, so each input has a program of its own, and each of them calls passage.
#![tactic(auto)]

fn main(rt: HostRuntime) {
    passage::program::run(&mut rt.stdin(), &mut rt.stdout());
}
