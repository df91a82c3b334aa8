// Which staged bytes were last written by a package with a wrong sum: one bit for each, in a lent bitmap.
ghost use Rattle.std.specs.Prelude.{◌≡◌, not, cond, ◌+◌, ◌*◌, ◌≤◌, ◌<◌};
ghost use Rattle.wire.specs.Bits.{bit_at};
ghost use Rattle.wire.specs.Pieces.{each};
ghost use Rattle.load.specs.Staging.{staging_bytes};
ghost use Rattle.load.specs.Bitmap.{bitmap_bytes, is_bad, with_bad, bitmap_after, none_bad, staged_sum};

use crate::staging::Staging;
use wire::bits::{bit_at, with_bit};

pub const BITMAP_BYTES: usize = 7874;

pub type Bitmap = [u8; BITMAP_BYTES];

// Whether staged byte i is bad.
fn is_bad(bitmap: &Bitmap, i: usize) -> bool
    requires { i < staging_bytes }
    ensures { result ≡ is_bad bitmap.now i }
{
    bit_at(bitmap[i / 8], (i % 8) as u32)
}

// The bit of staged byte i is set or cleared.
fn put_bit(bitmap: &mut Bitmap, i: usize, bad: bool)
    requires { i < staging_bytes }
    ensures { bitmap.new ≡ with_bad bitmap.old i bad }
{
    bitmap[i / 8] = with_bit(bitmap[i / 8], (i % 8) as u32, bad);
}

// The bits of n staged bytes from `next` on, one by one: by index, since a bit is no element.
fn put_each(bitmap: &mut Bitmap, next: usize, n: usize, bad: bool)
    requires { next + n ≤ staging_bytes }
    ensures { bitmap.new ≡ bitmap_after bitmap.old next n bad }
{
    for i in 0..n {
        put_bit(bitmap, next + i, bad);
    }
}

// A byte of eight bits, each set or cleared.
fn eight_bits(bad: bool) -> u8
    ensures { result ≡ cond bad 255 0 }
{
    if bad { 255 } else { 0 }
}

// The bits of `many` whole bytes from byte `first` on.
fn put_whole(bitmap: &mut Bitmap, first: usize, many: usize, bad: bool)
    requires { first + many ≤ bitmap_bytes }
    ensures { bitmap.new ≡ bitmap_after bitmap.old (8 * first) (8 * many) bad }
{
    bitmap[first..first + many].fill(eight_bits(bad));
}

// The bits of n staged bytes from `next` on are set or cleared: whole bytes at once, and those before and behind one by one.
pub fn put_bits(bitmap: &mut Bitmap, next: usize, n: usize, bad: bool)
    requires { next + n ≤ staging_bytes }
    ensures { bitmap.new ≡ bitmap_after bitmap.old next n bad }
{
    let first = (next + 7) / 8;
    let before = 8 * first - next;
    if n < before {
        put_each(bitmap, next, n, bad);
        return;
    }
    let many = (n - before) / 8;
    put_each(bitmap, next, before, bad);
    put_whole(bitmap, first, many, bad);
    put_each(bitmap, 8 * (first + many), n - before - 8 * many, bad);
}

// Whether none of a byte's eight bits is set.
fn none_of_eight(byte: u8) -> bool
    ensures { result ≡ each 8 (λ j. not (bit_at byte j)) }
{
    byte == 0
}

// Whether none of the bits in the first n bytes is set. `all` leaves at the first that is, and so isn't compiled to vectors: it takes
// nineteen times as many instructions.
fn none_whole(bitmap: &Bitmap, n: usize) -> bool
    requires { n ≤ bitmap_bytes }
    ensures { result ≡ none_bad bitmap.now (8 * n) }
{
    let mut good = true;
    for byte in &bitmap[..n] {
        good = good & none_of_eight(*byte);
    }
    good
}

// Whether no staged byte below the reach is bad: whole bytes of the bitmap at once, and the last bits one by one, by index, since a
// bit is no element. A state may have any reach and is judged before: the bound stays a clause.
pub fn none_bad(bitmap: &Bitmap, reach: usize) -> bool
    requires { reach ≤ staging_bytes }
    ensures { result ≡ none_bad bitmap.now reach }
{
    let whole = reach / 8;
    let mut good = none_whole(bitmap, whole);
    for i in 8 * whole..reach {
        good = good & !is_bad(bitmap, i);
    }
    good
}

// The sum of the staged bytes below the reach.
pub fn staged_sum(staging: &Staging, reach: usize) -> u32
    requires { reach ≤ staging_bytes }
    ensures { result ≡ staged_sum staging.now reach }
{
    wire::read::long_sum(&staging[..reach])
}
