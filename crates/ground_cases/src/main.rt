// Gives the gatherer and the converters buffers of the right length and one off, which no stream can, and prints the number
// that each call answers. The expected output is what the second implementation prints.
#![tactic(auto)]

mod converts;
mod gathers;

fn main(rt: HostRuntime) {
    gathers::run(&rt);
    converts::run(&rt);
}
