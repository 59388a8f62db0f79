// The program passage on lines of other forms, a line over the limit, and a last line without line feed.
// A program is run on one input, so each input has a program of its own, and each of them calls passage.
#![tactic(auto)]

fn main(rt: HostRuntime) {
    passage::program::run(&mut rt.stdin(), &mut rt.stdout());
}
