// The program passage with 257 records: refusal 5, and refusal 7 for targets that make 257 segments.
// A program is run on one input, so each input has a program of its own, and each of them calls passage.
#![tactic(auto)]

fn main(rt: HostRuntime) {
    passage::program::run(&mut rt.stdin(), &mut rt.stdout());
}
