// The system's text for the reason of a failure.
ghost use Rattle.std.specs.Prelude.{◌≤◌, length};

use std::io::{Error, Result, Write};

// Room for the longest text, and for the error's number behind it.
const REASON_BYTES: usize = 320;

// What stands between the text and the error's number.
const NUMBER: &[u8] = b" (os error ";

// Where the text ends: before the number.
fn text_end(text: &[u8]) -> usize
    ensures { result ≤ length text.now }
{
    text.windows(NUMBER.len())
        .position(|part| part == NUMBER)
        .unwrap_or(text.len())
}

// Writes the text alone; what has no room is left out.
pub fn write_reason<W: Write>(to: &mut W, error: Error) -> Result<()> {
    let mut buffer = [0u8; REASON_BYTES];
    let mut rest = &mut buffer[..];
    let _ = write!(rest, "{error}");
    let filled = REASON_BYTES.saturating_sub(rest.len());
    let text = &buffer[..filled];
    to.write_all(&text[..text_end(text)])
}
