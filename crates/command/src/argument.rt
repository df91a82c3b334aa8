// Arguments: hexadecimal numbers of one to six digits.
ghost use Rattle.std.specs.Prelude.{◌≡◌, ◌≤◌, ◌<◌, cond, length};
ghost use Rattle.command.specs.Grammar.{is_digit, digit_value, argument_of};

const MAX_DIGITS: usize = 6;

// The value of a digit 0-9 a-f, 0 to 15. The library's `to_digit` takes capitals too.
fn digit_value(b: u8) -> Option<u32>
    ensures { result ≡ cond (is_digit b) (Some (digit_value b)) None }
{
    match b {
        b'0'..=b'9' => Some(u32::from(b - b'0')),
        b'a'..=b'f' => Some(u32::from(b - b'a') + 10),
        _ => None,
    }
}

// The number that the word stands for, where it is one.
pub fn argument_of(w: &[u8]) -> Option<u32>
    ensures { result ≡ argument_of w.now }
{
    if w.is_empty() | (MAX_DIGITS < w.len()) {
        return None;
    }
    let mut n: u32 = 0;
    for b in w {
        n = 16 * n + digit_value(*b)?;
    }
    Some(n)
}
