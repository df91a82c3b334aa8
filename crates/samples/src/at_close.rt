// The sample slots at a close.
ghost use Rattle.std.specs.Prelude.{◌≡◌, length};
ghost use Rattle.wire.specs.Bytes.{zeros};
ghost use Rattle.wire.specs.Lists.{all};
ghost use Rattle.sample_record.specs.Record.{record_good};
ghost use Rattle.samples.specs.Samples.{filled};

use sample_record::record_good;

// Whether each slot is zero or holds a record of box 6 to 116, with no `all`, which leaves early: the scan would not be made of vectors.
pub fn all_good(slots: &[u32]) -> bool
    ensures { result ≡ all record_good slots.now }
{
    let mut ok = true;
    for slot in slots {
        ok = ok & record_good(*slot);
    }
    ok
}

// How many slots are not zero. A chain with `filter` and `count` takes three times as many instructions.
pub fn filled(slots: &[u32]) -> usize
    ensures { result ≡ filled slots.now }
{
    let mut count: usize = 0;
    for slot in slots {
        if 0 < *slot {
            count += 1;
        }
    }
    count
}

// Every slot becomes empty.
pub fn clear(slots: &mut [u32])
    ensures { slots.new ≡ zeros (length slots.old) }
{
    slots.fill(0);
}
