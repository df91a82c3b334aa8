// Writers into a lent part. Each leaves every byte outside its run as it was.
ghost use Rattle.std.specs.Prelude.{◌≡◌, ◌+◌, ◌-◌, ◌*◌, ◌≤◌, ◌<◌, length};
ghost use Rattle.wire.specs.Bytes.{put, be24, words, zeros};

use crate::number::BigEndian;

// v, below 2^24, in three bytes from `at` on. No type has 24 bits, so this stands beside `BigEndian`. Byte by byte: by
// `copy_from_slice` of the last three a load of packed words takes more than twice as many instructions.
pub fn put_u24(part: &mut [u8], at: usize, v: u32)
    requires at_in_bounds { at + 3 ≤ length part.old }
    requires v_bound { v < 16777216 }
    ensures { part.new ≡ put part.old at (be24 v) }
{
    let [_, high, middle, low] = v.to_be_bytes();
    part[at] = high;
    part[at + 1] = middle;
    part[at + 2] = low;
}

// The words, four bytes each, from `at` on. By place: the library's `as_chunks_mut` says nothing of what it leaves.
#[tactic(auto, using(crate::proofs::Bytes::put_nil, crate::proofs::Bytes::put_put, crate::proofs::Bytes::words_take, crate::proofs::Bytes::length_words_take), unfolding(crate::specs::Bytes::words))]
pub fn put_words(part: &mut [u8], at: usize, ws: &[u32])
    requires { at + 4 * length ws.now ≤ length part.old }
    ensures { part.new ≡ put part.old at (words ws.now) }
{
    for (i, word) in ws.iter().enumerate() {
        word.put(part, at + 4 * i);
    }
}

// The bytes of `src` from `at` on. A loop, and no `copy_from_slice`: the compiled loop takes 0.25 instructions a byte, the library's
// copy one.
pub fn put_bytes(part: &mut [u8], at: usize, src: &[u8])
    requires { at + length src.now ≤ length part.old }
    ensures { part.new ≡ put part.old at src.now }
{
    for (i, byte) in src.iter().enumerate() {
        part[at + i] = *byte;
    }
}

// Zeros from `from` to before `to`.
#[tactic(auto, using(crate::proofs::Bytes::put_mid_lem, crate::proofs::Bytes::length_part))]
pub fn put_zeros(part: &mut [u8], from: usize, to: usize)
    requires { (from ≤ to) × (to ≤ length part.old) }
    ensures { part.new ≡ put part.old from (zeros (to - from)) }
{
    part[from..to].fill(0);
}
