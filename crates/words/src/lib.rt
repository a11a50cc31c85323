// The words and parts of a line of text, and the numbers among them.
#![tactic(auto)]

pub mod decimals;

ghost use Rattle.std.specs.Prelude.{◌≡◌, ◌≤◌, length};
ghost use Rattle.words.specs.Search.{index_of};
ghost use Rattle.words.specs.Line.{word_of, after_word};
ghost use Rattle.words.specs.Numbers.{part_of, rest_of, numbers_of};
ghost use Rattle.words.specs.Place.{place_of};

use crate::decimals::number_in;

// Up to three numbers: how many, with each of them.
#[derive(Clone, Copy)]
pub enum Numbers {
    Nothing,
    One(u64),
    Two(u64, u64),
    Three(u64, u64, u64),
}

// Where the byte first stands in s; where it does not, the end of s.
fn find(s: &[u8], b: u8) -> usize
    ensures within { result ≤ length s.now }
    ensures value { result ≡ index_of b s.now }
{
    s.iter().position(|x| *x == b).unwrap_or(s.len())
}

// The word with which a line starts, as far as the first blank.
#[tactic(auto, unfolding(crate::specs::Line::word_of))]
pub fn word_in(line: &[u8]) -> &[u8]
    ensures { result.now ≡ word_of line.now }
{
    &line[..find(line, b' ')]
}

// What follows that word: from the first blank on.
#[tactic(auto, unfolding(crate::specs::Line::after_word))]
pub fn after_word(line: &[u8]) -> &[u8]
    ensures { result.now ≡ after_word line.now }
{
    &line[find(line, b' ')..]
}

// The numbers of s, each with one blank before it; none where there are more than three, or something else.
#[tactic(auto, unfolding(crate::specs::Numbers::numbers_of))]
pub fn numbers_in(s: &[u8]) -> Option<Numbers>
    ensures { result ≡ numbers_of s.now }
{
    if s.is_empty() {
        return Some(Numbers::Nothing);
    }
    let a = number_in(part_in(s))?;
    let s = rest_in(s);
    if s.is_empty() {
        return Some(Numbers::One(a));
    }
    let b = number_in(part_in(s))?;
    let s = rest_in(s);
    if s.is_empty() {
        return Some(Numbers::Two(a, b));
    }
    let c = number_in(part_in(s))?;
    if rest_in(s).is_empty() {
        Some(Numbers::Three(a, b, c))
    } else {
        None
    }
}

// The part after the blank with which s starts, as far as the next blank. Where s starts otherwise it is empty.
#[tactic(auto, using(crate::proofs::Parts::part_blank, crate::proofs::Parts::part_other, crate::proofs::Parts::part_none))]
pub fn part_in(s: &[u8]) -> &[u8]
    ensures { result.now ≡ part_of s.now }
{
    match s {
        [b' ', part @ ..] => word_in(part),
        _ => &[],
    }
}

// What follows the first part: from the next blank on.
#[tactic(auto, using(crate::proofs::Parts::rest_after, crate::proofs::Parts::rest_none))]
pub fn rest_in(s: &[u8]) -> &[u8]
    ensures { result.now ≡ rest_of s.now }
{
    match s {
        [_, rest @ ..] => after_word(rest),
        [] => s,
    }
}

// How many words of a list stand before this one: all, where it is not there. Each has one blank before it.
#[tactic(auto, using(crate::proofs::Same::same_bytes, crate::proofs::Within::at_end, crate::proofs::Within::is_here, crate::proofs::Within::is_later), unfolding(crate::specs::Place::place_of))]
pub fn place_of(word: &[u8], list: &[u8]) -> usize
    ensures { result ≡ place_of word.now list.now }
{
    let mut left = list;
    // A part takes a byte of the list at least.
    for k in 0..list.len() {
        if left.is_empty() || word == part_in(left) {
            return k;
        }
        left = rest_in(left);
    }
    list.len()
}
