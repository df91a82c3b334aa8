// Single bits.
ghost use Rattle.std.specs.Prelude.{◌≡◌, ◌≤◌, ◌<◌};
ghost use Rattle.wire.specs.Bits.{is_set, bit_at, with_bit};

// Whether the bit with this value is set. By `/` and not by `&`: its contract
// takes any value, and not those of one bit alone.
pub fn is_set(byte: u8, value: u8) -> bool
    requires { 1 ≤ value }
    ensures { result ≡ is_set byte value }
{
    byte / value % 2 == 1
}

// Whether bit k of a byte is set. Its bound stays a clause: who calls has k as a rest modulo 8.
pub fn bit_at(byte: u8, k: u32) -> bool
    requires { k < 8 }
    ensures { result ≡ bit_at byte k }
{
    (byte >> k) % 2 == 1
}

// A byte with bit k set or cleared.
#[tactic(auto, using(crate::proofs::BitLaws::bit_set, crate::proofs::BitLaws::bit_cleared))]
pub fn with_bit(byte: u8, k: u32, flag: bool) -> u8
    requires { k < 8 }
    ensures { result ≡ with_bit byte k flag }
{
    if flag {
        byte | (1 << k)
    } else {
        byte & !(1 << k)
    }
}
