// Packing the staged bytes into the tables.
ghost use Rattle.std.specs.Prelude.{◌≡◌, true, ◌++◌, ◌+◌, ◌-◌, ◌*◌, ◌/◌, ◌≤◌, ◌<◌, length, take};
ghost use Rattle.wire.specs.Bytes.{put, zeros, be24};
ghost use Rattle.wire.specs.Pieces.{padded};
ghost use Rattle.load.specs.Load.{word_width, packing_number, load_lawful, packed_word, packed_words, loaded};

use crate::staging::Staging;
use crate::words::Packing;
use tables::Tables;
use wire::write::{put_bytes, put_u24, put_zeros};

// One word of the tables from `at` on: zeros, the bytes, and zeros behind a short last word.
fn put_packed(tables: &mut [u8], at: usize, width: usize, bytes: &[u8])
    requires at_in_bounds { at + 3 ≤ length tables.old }
    requires bytes_len_bound { (length bytes.now ≤ width) × (width ≤ 3) }
    ensures { tables.new ≡ put tables.old at (zeros (3 - width) ++ padded width bytes.now) }
{
    let from = at + (3 - width);
    put_zeros(tables, at, from);
    put_bytes(tables, from, bytes);
    put_zeros(tables, from + bytes.len(), at + 3);
}

// Word k of the first n staged bytes, packed into its place: n is the reach, and staging is lent whole. What is left of them may be
// less than a word.
fn load_word(tables: &mut [u8], staging: &[u8], at: usize, width: usize, k: usize, n: usize)
    requires k_in_bounds { (at + 3 * k) + 3 ≤ length tables.old }
    requires width_bound { (width ≤ 3) × (width * k ≤ n) × (n ≤ length staging.now) }
    ensures { tables.new ≡ put tables.old (at + 3 * k) (packed_word width (take n staging.now) k) }
{
    let from = width * k;
    let to = from + width.min(n - from);
    put_packed(tables, at + 3 * k, width, &staging[from..to]);
}

// The first n words of three bytes each, behind which a short one may follow: the bytes as they are, in one run. Word by word
// they take seven times as many instructions.
fn load_threes(tables: &mut [u8], at: usize, bytes: &[u8], n: usize)
    requires { (at + 3 * n ≤ length tables.old) × (3 * n ≤ length bytes.now) }
    ensures { tables.new ≡ put tables.old at (packed_words 3 bytes.now n) }
{
    let end = 3 * n;
    put_bytes(tables, at, &bytes[..end]);
}

// A word of W bytes, as a number. A slice: of an array whose length is a const parameter no proof knows that each byte is below 256.
fn word<const W: usize>(bytes: &[u8]) -> u32
    requires { (1 ≤ W) × (W ≤ 2) × (length bytes.now ≡ W) }
    ensures { (be24 result ≡ packed_word W bytes.now 0) × (result < 16777216) }
{
    if W == 1 {
        u32::from(bytes[0])
    } else {
        256 * u32::from(bytes[0]) + u32::from(bytes[1])
    }
}

// The words of W bytes each that the bytes fill, each written at once, by its place, since the library's `as_chunks_mut` says nothing
// of what it leaves: five instructions a word.
fn load_each<const W: usize>(tables: &mut [u8], at: usize, bytes: &[u8])
    requires { (1 ≤ W) × (W ≤ 2) × (at + 3 * (length bytes.now / W) ≤ length tables.old) }
    ensures { tables.new ≡ put tables.old at (packed_words W bytes.now (length bytes.now / W)) }
{
    let (words, _) = bytes.as_chunks::<W>();
    for (k, bytes) in words.iter().enumerate() {
        put_u24(tables, at + 3 * k, word::<W>(bytes));
    }
}

// As many words as the bytes fill, and how many they are.
fn load_whole(tables: &mut [u8], at: usize, packing: Packing, bytes: &[u8]) -> usize
    requires { at + 3 * (length bytes.now / word_width (packing_number packing)) ≤ length tables.old }
    ensures words { result ≡ length bytes.now / word_width (packing_number packing) }
    ensures tables { tables.new
        ≡ put tables.old at
        (packed_words (word_width (packing_number packing)) bytes.now (length bytes.now / word_width (packing_number packing))) }
{
    let n = bytes.len() / packing.width();
    match packing {
        Packing::ThreeBytes => load_threes(tables, at, bytes, n),
        Packing::OneByte => load_each::<1>(tables, at, bytes),
        Packing::TwoBytes => load_each::<2>(tables, at, bytes),
    }
    n
}

// The first `reach` bytes of staging, packed into the tables from word a on: the words that they fill, and a short last one. y is the
// byte of a waiting load, which may be any in a state that is lent.
#[tactic(auto, using(crate::proofs::LoadLaws::lawful_start, crate::proofs::LoadLaws::lawful_reach))]
pub fn run_load(tables: &mut Tables, staging: &Staging, a: u32, y: u8, reach: u32)
    requires reach_value { load_lawful a y reach ≡ true }
    ensures { tables.new ≡ loaded tables.old staging.now a y reach }
{
    let packing = Packing::from(y);
    let at = 3 * (a as usize - tables::FIRST);
    let n = reach as usize;
    let whole = load_whole(tables, at, packing, &staging[..n]);
    if whole < packing.words(reach) {
        load_word(tables, staging, at, packing.width(), whole, n);
    }
}
