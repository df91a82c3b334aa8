// How many words the staged bytes make, and whether they stay within the tables.
ghost use Rattle.std.specs.Prelude.{◌≡◌, ◌≤◌};
ghost use Rattle.load.specs.Load.{word_width, load_words, load_lawful, packing_of, packing_number};

// How staged bytes make words, by a load's y: three to a word, one, or two.
#[derive(Clone, Copy, PartialEq, Eq)]
pub enum Packing {
    ThreeBytes,
    OneByte,
    TwoBytes,
}

impl Packing {
    // The way to pack that y stands for. No `TryFrom`: the language gives each `From` one that never
    // fails, and `From` takes any y.
    pub fn of(y: u8) -> Option<Packing>
        ensures { result ≡ packing_of y }
    {
        match y {
            0 => Some(Packing::ThreeBytes),
            1 => Some(Packing::OneByte),
            2 => Some(Packing::TwoBytes),
            _ => None,
        }
    }

    // How many bytes go into a word.
    pub fn width(self) -> usize
        ensures { (result ≡ word_width (packing_number self)) × (1 ≤ result) × (result ≤ 3) }
    {
        match self {
            Packing::ThreeBytes => 3,
            Packing::OneByte => 1,
            Packing::TwoBytes => 2,
        }
    }

    // How many words the bytes make, a short last one counted.
    pub fn words(self, reach: u32) -> usize
        ensures { result ≡ load_words (packing_number self) reach }
    {
        let width = self.width();
        (reach as usize + (width - 1)) / width
    }
}

impl From<u8> for Packing {
    ghost from_gives = { λ y packing. word_width (packing_number packing) ≡ word_width y };

    // The way to pack of any y: one above 2 stands for two bytes, as in the definitions, and no load that has it is lawful.
    fn from(y: u8) -> Packing {
        Packing::of(y).unwrap_or(Packing::TwoBytes)
    }
}

// How many bytes go into a word, of any y.
pub fn word_width(y: u8) -> usize
    ensures { (result ≡ word_width y) × (1 ≤ result) × (result ≤ 3) }
{
    Packing::from(y).width()
}

// How many words the bytes make, of any y, a short last one counted.
pub fn load_words(y: u8, reach: u32) -> usize
    ensures { result ≡ load_words y reach }
{
    Packing::from(y).words(reach)
}

// Whether a load of the reach is lawful: a way to pack, at least one byte, and all words within the tables. It takes any y, since the
// state may hold one that stands for no way to pack.
pub fn load_lawful(a: u32, y: u8, reach: u32) -> bool
    ensures { result ≡ load_lawful a y reach }
{
    let Some(packing) = Packing::of(y) else {
        return false;
    };
    let from = a as usize;
    (1 <= reach) & (tables::FIRST <= from) & (from + packing.words(reach) <= tables::END)
}
