// Runs cases of command lines, echoes, load packages and loads, and prints each answer on a line of its own.
#![tactic(auto)]

mod cases;
mod input;
mod output;

// By `io`, and not as the programs read: no test takes it from the code that it tests.
fn main(rt: HostRuntime) {
    let mut text = io::large_buffer();
    let n = io::read_full(0, &mut text);
    input::run(&rt, &text[..n]);
}
