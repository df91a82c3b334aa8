// Values for the packets, from a simple generator of numbers.
ghost use Rattle.std.specs.Prelude.{◌<◌};
ghost use Rattle.wire.specs.Lists.{EachBelow};
ghost use Rattle.rate_code.specs.Rate.{count_limit};

// The number after x, below 2^24.
fn next(x: u32) -> u32
    requires { x < count_limit }
    ensures { result < count_limit }
{
    (x * 251 + 12345) % 16777216
}

// Counts of every length in bits.
pub fn fill_counts(counts: &mut [u32], seed: u32)
    requires seed_lt_count_limit { seed < count_limit }
    requires each_below { EachBelow count_limit counts.old }
    ensures { EachBelow count_limit counts.new }
{
    let mut x = seed;
    for (i, count) in counts.iter_mut().enumerate() {
        x = next(x);
        *count = x >> (i % 24);
    }
}

// A record of box 6 to 116.
fn record(x: u32) -> u32
    requires { x < count_limit }
{
    x * 256 + (6 + x % 111) * 2 + x / 3 % 2
}

// Records, each eighth empty.
pub fn fill_records(records: &mut [u32], seed: u32)
    requires { seed < count_limit }
{
    let mut x = seed;
    for (i, empty) in records.iter_mut().enumerate() {
        x = next(x);
        *empty = if i % 8 == 7 { 0 } else { record(x) };
    }
}
