// Which bytes are some state.
ghost use Rattle.std.specs.Prelude.{◌≡◌};
ghost use Rattle.image.specs.Image.{entry_good, image_good};

use crate::layout::{ENTRIES_AT, ENTRY_BYTES, Image, LOAD_KIND, NEXT_AT, SETTING_KINDS};
use wire::number::BigEndian;

// Whether a kind is there, and has a value in its range.
fn entry_good(kind: u8, value: u32) -> bool
    ensures { result ≡ entry_good kind value }
{
    (kind == LOAD_KIND) | (kind < SETTING_KINDS) & (value <= 65535)
}

// Whether each entry is some command. All other bytes are right in every image. By `all` the proof did not close.
pub fn is_state(image: &Image) -> bool
    ensures { result ≡ image_good image.now }
{
    let (entries, _) = image[ENTRIES_AT..NEXT_AT].as_chunks::<ENTRY_BYTES>();
    let mut ok = true;
    for entry in entries {
        ok = ok & entry_good(entry[0], u32::read(entry, 1));
    }
    ok
}
