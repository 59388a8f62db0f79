// The program passage on refused lines: 1 to 4, 6, 8 and 10.
// A program is run on one input, so each input has a program of its own, and each of them calls passage.
#![tactic(auto)]

fn main(rt: HostRuntime) {
    passage::program::run(&mut rt.stdin(), &mut rt.stdout());
}
