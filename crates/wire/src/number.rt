// Numbers in lent buffers, most significant byte first.
ghost use Rattle.std.specs.Prelude.{ℕ, List, ◌≡◌, ◌+◌, ◌≤◌, length};
ghost use Rattle.wire.specs.Bytes.{put, one, be16, be32, at8, at16, at32};
ghost use Rattle.wire.specs.NumberLaws.{reads8, reads16, reads32};

// A number of as many bytes as its type has.
pub trait BigEndian: Copy {
    ghost width: { ℕ };

    ghost bytes: { Self → List ℕ };

    ghost number: { List ℕ → ℕ → Self };

    // The number's bytes go to the part from `at` on, and every other byte stays as it was.
    fn put(self, part: &mut [u8], at: usize)
        requires { at + width ≤ length part.old }
        ensures { part.new ≡ put part.old at (bytes self) };

    // The number in the bytes from `at` on.
    fn read(part: &[u8], at: usize) -> Self
        requires { at + width ≤ length part.now }
        ensures { result ≡ number part.now at };

    // What was put is read.
    ghost reads: { (xs : List ℕ) (i : ℕ) (v : Self) → i + width ≤ length xs → number (put xs i (bytes v)) i ≡ v };
}

impl BigEndian for u8 {
    ghost width = { 1 };

    ghost bytes = { one };

    ghost number = { at8 };

    ghost reads = { reads8 };

    fn put(self, part: &mut [u8], at: usize) {
        part[at] = self;
    }

    fn read(part: &[u8], at: usize) -> u8 {
        part[at]
    }
}

// An impl for each width: the library's `from_be_bytes` stands in no trait.
impl BigEndian for u16 {
    ghost width = { 2 };

    ghost bytes = { be16 };

    ghost number = { at16 };

    ghost reads = { reads16 };

    fn put(self, part: &mut [u8], at: usize) {
        part[at] = (self / 256) as u8;
        part[at + 1] = (self % 256) as u8;
    }

    fn read(part: &[u8], at: usize) -> u16 {
        u16::from_be_bytes([part[at], part[at + 1]])
    }
}

impl BigEndian for u32 {
    ghost width = { 4 };

    ghost bytes = { be32 };

    ghost number = { at32 };

    ghost reads = { reads32 };

    fn put(self, part: &mut [u8], at: usize) {
        part[at] = (self / 16777216) as u8;
        part[at + 1] = (self / 65536 % 256) as u8;
        part[at + 2] = (self / 256 % 256) as u8;
        part[at + 3] = (self % 256) as u8;
    }

    fn read(part: &[u8], at: usize) -> u32 {
        u32::from_be_bytes([part[at], part[at + 1], part[at + 2], part[at + 3]])
    }
}
