// The answers to an event, a reading, a line and a package, and to a state and slots, printed.
use buffered::text::Text;
use causes::{Cause, call_number};
use std::fmt::Display;

// A call and the number that it answers.
pub fn print_number<T>(text: &mut Text, call: &str, answer: &Result<T, Cause>) {
    writeln!(text, "{call} {}", call_number(answer));
}

// A number, a whole echo, and the sum that an ask returns.
pub fn print_line(text: &mut Text, answer: Result<u32, Cause>, echo: &[u8]) {
    write!(text, "line {} ", call_number(&answer));
    text.hex(echo);
    writeln!(text, " {}", answer.unwrap_or(0));
}

pub fn print_package(text: &mut Text, answer: Result<(), Cause>, echo: &[u8]) {
    print_bytes(text, format_args!("package {}", call_number(&answer)), echo);
}

// A state that was handed in.
pub fn print_state(text: &mut Text) {
    writeln!(text, "state");
}

// A name, or one and a number, and bytes, which are a line.
pub(crate) fn print_bytes<D: Display + Drop>(text: &mut Text, name: D, bytes: &[u8]) {
    write!(text, "{name} ");
    text.hex(bytes);
    writeln!(text);
}

// The bytes of a state.
pub fn print_shown(text: &mut Text, image: &[u8]) {
    print_bytes(text, "state", image);
}

// Slots that were handed in.
pub fn print_slots(text: &mut Text) {
    writeln!(text, "slots");
}
