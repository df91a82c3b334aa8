// Command lines.
ghost use Rattle.std.specs.Prelude.{◌≡◌, [], ◌∷◌, MatchOption};
ghost use Rattle.std.specs.List.{list_all};
ghost use Rattle.command.specs.Grammar.{printable, bytes_ok, line_words, of_words, line_of};
ghost use Rattle.command.specs.Parsing.{arguments_in, or_wrong};

use crate::argument::argument_of;
use crate::command::Line;
use crate::keyword::{Arguments, Keyword};
use crate::ranges::Ranges;
use wire::words::length_before;

pub const MAX_LINE: usize = 80;

fn all_printable(line: &[u8]) -> bool
    ensures { result ≡ list_all printable line.now }
{
    line.iter().all(|b| (32 <= *b) & (*b <= 126))
}

// Whether the line has no more bytes than it may, and no others than it may. No byte of a longer line is read.
#[tactic(auto, using(crate::proofs::WordLaws::all_is))]
pub fn bytes_ok(line: &[u8]) -> bool
    ensures { result ≡ bytes_ok line.now }
{
    line.len() <= MAX_LINE && all_printable(line)
}

// The first word, and what stands behind the space that ends it.
#[tactic(auto, using(crate::proofs::WordLaws::words_one, crate::proofs::WordLaws::words_more))]
fn split_word(words: &[u8]) -> Option<(&[u8], &[u8])>
    ensures { MatchOption result (line_words words.now ≡ words.now ∷ [])
        (λ p. line_words words.now ≡ p.0.now ∷ line_words p.1.now) }
{
    let n = length_before(words, b' ');
    if words.len() <= n {
        return None;
    }
    Some((&words[..n], &words[n + 1..]))
}

// The arguments in the words behind a keyword. A third word that has a space behind it is no argument.
#[tactic(auto, unfolding(crate::specs::Parsing::arguments_in))]
fn arguments_in(words: &[u8]) -> Option<Arguments>
    ensures { result ≡ arguments_in (line_words words.now) }
{
    let Some((first, behind)) = split_word(words) else {
        return Some(Arguments::One(argument_of(words)?));
    };
    let a = argument_of(first)?;
    let Some((second, third)) = split_word(behind) else {
        return Some(Arguments::Two(a, argument_of(behind)?));
    };
    Some(Arguments::Three(a, argument_of(second)?, argument_of(third)?))
}

// What a line that is not empty asks for.
fn asked(line: &[u8], ranges: Ranges) -> Option<Line>
    ensures { or_wrong result ≡ of_words (line_words line.now) ranges }
{
    let (word, words) = split_word(line)?;
    Keyword::named(word)?.with(arguments_in(words)?, ranges)
}

// What the line is, in these ranges.
#[tactic(auto, unfolding(crate::specs::Grammar::line_of))]
pub fn parse(line: &[u8], ranges: Ranges) -> Line
    ensures { result ≡ line_of line.now ranges }
{
    if line.is_empty() {
        return Line::Empty;
    }
    asked(line, ranges).unwrap_or(Line::Wrong)
}
