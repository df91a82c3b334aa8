// Keywords, and the lines that they make of arguments, each in its range.
ghost use Rattle.std.specs.Prelude.{◌≡◌};
ghost use Rattle.wire.specs.Words.{same};
ghost use Rattle.command.specs.Grammar.{set_line, one_argument, two_arguments, three_arguments};
ghost use Rattle.command.specs.Parsing.{keyword_of, or_wrong, with_arguments, lawful_packing};
ghost use Rattle.command.specs.Parsing.{one_of, two_of, three_of, answered};

use crate::command::{Line, Setting};
use crate::ranges::Ranges;
use load::words::load_lawful;

// The first word of a line.
#[derive(Clone, Copy)]
pub enum Keyword {
    Sets(Setting),
    Load,
    LoadAt,
    Ask,
    Commit,
}

// What stands behind the keyword: one to three numbers.
#[derive(Clone, Copy)]
pub enum Arguments {
    One(u32),
    Two(u32, u32),
    Three(u32, u32, u32),
}

impl Keyword {
    // The keyword that the word is. A test for each: a `match` on byte strings parts at single bytes, into 58 ways, and the proof with it.
    #[tactic(auto, unfolding(crate::specs::Parsing::keyword_of))]
    pub fn named(word: &[u8]) -> Option<Keyword>
        ensures { result ≡ keyword_of word.now }
    {
        if is(word, b"limhi") {
            return Some(Keyword::Sets(Setting::Limhi));
        }
        if is(word, b"eonly") {
            return Some(Keyword::Sets(Setting::Eonly));
        }
        if is(word, b"toferror") {
            return Some(Keyword::Sets(Setting::Toferror));
        }
        if is(word, b"junk") {
            return Some(Keyword::Sets(Setting::Junk));
        }
        if is(word, b"hv") {
            return Some(Keyword::Sets(Setting::Hv));
        }
        if is(word, b"hvstep") {
            return Some(Keyword::Sets(Setting::Hvstep));
        }
        if is(word, b"load") {
            return Some(Keyword::Load);
        }
        if is(word, b"loadat") {
            return Some(Keyword::LoadAt);
        }
        if is(word, b"ask") {
            return Some(Keyword::Ask);
        }
        if is(word, b"commit") {
            return Some(Keyword::Commit);
        }
        None
    }

    // The line that the keyword makes of its arguments, where they are in their ranges.
    #[tactic(auto, unfolding(crate::specs::Grammar::right_if))]
    pub fn with(self, arguments: Arguments, ranges: Ranges) -> Option<Line>
        ensures { or_wrong result ≡ with_arguments self arguments ranges }
    {
        match (self, arguments) {
            (Keyword::Sets(setting), Arguments::One(n)) => set_line(setting, n, ranges),
            (Keyword::Load, Arguments::One(n)) => (n == 0).then_some(Line::LoadZero),
            (Keyword::LoadAt, Arguments::One(a)) => {
                (a <= ranges.reach).then_some(Line::LoadAt(a))
            }
            (Keyword::Ask, Arguments::Two(a, y)) => {
                lawful_packing(a, y, ranges)?;
                Some(Line::Ask)
            }
            (Keyword::Commit, Arguments::Three(a, y, sum)) => {
                Some(Line::Commit(a, lawful_packing(a, y, ranges)?, sum))
            }
            _ => None,
        }
    }
}

impl Arguments {
    // One argument, where it is a number.
    fn one(n: Option<u32>) -> Option<Arguments>
        ensures { result ≡ one_of n }
    {
        Some(Arguments::One(n?))
    }

    // Two, where both are.
    fn two(n: Option<u32>, m: Option<u32>) -> Option<Arguments>
        ensures { result ≡ two_of n m }
    {
        Some(Arguments::Two(n?, m?))
    }

    // Three, where all are.
    fn three(n: Option<u32>, m: Option<u32>, l: Option<u32>) -> Option<Arguments>
        ensures { result ≡ three_of n m l }
    {
        Some(Arguments::Three(n?, m?, l?))
    }
}

// The line of a word that is a keyword, and its arguments, where there are such.
fn answered(word: &[u8], arguments: Option<Arguments>, ranges: Ranges) -> Option<Line>
    ensures { or_wrong result ≡ answered (keyword_of word.now) arguments ranges }
{
    Keyword::named(word)?.with(arguments?, ranges)
}

// The line of a keyword with one argument.
#[tactic(auto, using(crate::proofs::KeywordLaws::one_is))]
pub fn one_argument(keyword: &[u8], n: Option<u32>, ranges: Ranges) -> Line
    ensures { result ≡ one_argument keyword.now n ranges }
{
    answered(keyword, Arguments::one(n), ranges).unwrap_or(Line::Wrong)
}

// The line of a keyword with two arguments.
#[tactic(auto, using(crate::proofs::KeywordLaws::two_is))]
pub fn two_arguments(keyword: &[u8], n: Option<u32>, m: Option<u32>, ranges: Ranges) -> Line
    ensures { result ≡ two_arguments keyword.now n m ranges }
{
    answered(keyword, Arguments::two(n, m), ranges).unwrap_or(Line::Wrong)
}

// The line of a keyword with three arguments.
#[tactic(auto, using(crate::proofs::KeywordLaws::three_is))]
pub fn three_arguments(
    keyword: &[u8],
    n: Option<u32>,
    m: Option<u32>,
    l: Option<u32>,
    ranges: Ranges,
) -> Line
    ensures { result ≡ three_arguments keyword.now n m l ranges }
{
    answered(keyword, Arguments::three(n, m, l), ranges).unwrap_or(Line::Wrong)
}

// The line that sets the setting to n.
#[tactic(auto, unfolding(crate::specs::Grammar::right_if))]
fn set_line(setting: Setting, n: u32, ranges: Ranges) -> Option<Line>
    ensures { or_wrong result ≡ set_line setting n ranges }
{
    let n = u16::try_from(n).ok()?;
    (n <= setting.most(ranges)).then_some(Line::Change(setting, n))
}

// Whether the word is the keyword.
#[tactic(auto, using(wire::proofs::WordLaws::same_is))]
fn is(word: &[u8], keyword: &[u8]) -> bool
    ensures { result ≡ same word.now keyword.now }
{
    word == keyword
}

// The way to pack y of a load from a on, where the load is lawful.
#[tactic(auto, unfolding(load::specs::Load::load_lawful))]
fn lawful_packing(a: u32, y: u32, ranges: Ranges) -> Option<u8>
    ensures { result ≡ lawful_packing a y ranges }
{
    let y = u8::try_from(y).ok()?;
    load_lawful(a, y, ranges.reach).then_some(y)
}
