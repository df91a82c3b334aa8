// The answers of calls that write one packet, and of the gatherer, printed.
use crate::calls::{print_bytes, print_number};
use crate::close::print_out;
use buffered::text::Text;
use causes::{Cause, call_number};

// The call's name and number; the packet only where it was written.
pub fn print_written(text: &mut Text, call: &str, answer: Result<(), Cause>, packet: &[u8]) {
    print_number(text, call, &answer);
    if answer.is_ok() {
        print_out(text, packet);
    }
}

// The number, and how many packets are missing then.
pub fn print_gather(text: &mut Text, answer: Result<(), Cause>, missing: usize) {
    writeln!(text, "gather {} {missing}", call_number(&answer));
}

// How many packets are missing, and the whole table buffer.
pub fn print_gathered(text: &mut Text, missing: usize, table: &[u8]) {
    print_bytes(text, format_args!("gathered {missing}"), table);
}
