// Words of bytes: where one ends.
ghost use Rattle.std.specs.Prelude.{◌≡◌, ◌==◌, ◌≤◌, length, position};
ghost use Rattle.wire.specs.Words.{length_before};

// The place of the first b.
fn place_of(bytes: &[u8], b: u8) -> Option<usize>
    ensures { result ≡ position (λ x. x == b) bytes.now }
{
    bytes.iter().position(|x| *x == b)
}

// How many bytes stand before the first b; all of them, where there is none.
pub fn length_before(bytes: &[u8], b: u8) -> usize
    ensures { (result ≡ length_before b bytes.now) × (result ≤ length bytes.now) }
{
    place_of(bytes, b).unwrap_or(bytes.len())
}
