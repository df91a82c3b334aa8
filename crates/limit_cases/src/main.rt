// Gives the six calls of a fresh processor buffers of the right length and one off, which no stream can, and prints the
// number that each call answers. The expected output is what the second implementation prints.
#![tactic(auto)]

mod calls;
mod lengths;
mod listings;

fn main(rt: HostRuntime) {
    lengths::run(&rt);
}
