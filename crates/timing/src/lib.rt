// What the benchmarks call.
#![tactic(auto)]

ghost use Rattle.std.specs.Prelude.{◌≡◌, ◌/◌, length};
ghost use Rattle.measure.specs.Epoch.{shoushi};
ghost use Rattle.rows.specs.Reply.{answer_said};
ghost use Rattle.rows.specs.Row.{row_after};
ghost use Rattle.seasons.specs.Terms.{term_list, terms_reply};
ghost use Rattle.moons.specs.TrueMoon.{true_reply};
ghost use Rattle.edition.specs.Edition.{calendar};
ghost use Rattle.lists.specs.Records.{record_width};
ghost use Rattle.lists.specs.Lists.{run_of, run_reply};
ghost use Rattle.timing.specs.Timed.{number_told};

use measure::{LAST_YEAR, TERMS};
use rows::Refusal;
use seasons::term_time;

// An answer's number, with refused 0; a refusal has its number in refused, and 0 for the other. C, which reads it, has no Result.
#[repr(C)]
#[derive(Clone, Copy)]
pub struct Timed {
    pub refused: u64,
    pub number: u64,
}

// The true moon's running time.
pub fn timing_true_moon(l: u64, q: u64) -> Timed
    ensures { result ≡ number_told (true_reply shoushi l q) }
{
    Timed::from(moons::true_moon(l, q))
}

// The records of so many years; how many there are.
pub fn timing_run(row: &mut [u64], n: u64, count: u64) -> Timed
    ensures value { result ≡ number_told (run_reply shoushi n count (length row.old / record_width)) }
    ensures writes { row.new ≡ row_after (run_reply shoushi n count (length row.old / record_width)) (run_of (calendar shoushi) n count) row.old }
{
    Timed::from(lists::run(n, count, row))
}

// The terms of a year, carried from one to the next; how many there are.
pub fn timing_terms(row: &mut [u64], n: u64) -> Timed
    ensures value { result ≡ number_told (terms_reply n (length row.old)) }
    ensures writes { row.new ≡ row_after (terms_reply n (length row.old)) (term_list shoushi n) row.old }
{
    Timed::from(seasons::terms(n, row))
}

// The same, each multiplied anew: what carrying them is timed against.
#[tactic(auto, using(rows::proofs::Row::put_listed, rows::proofs::Row::listed_none, rows::proofs::Row::over_is, seasons::proofs::TermLaws::front_length, seasons::proofs::TermLaws::terms_written, seasons::proofs::TermLaws::terms_late, seasons::proofs::TermLaws::terms_short, seasons::proofs::TermLaws::terms_answered))]
pub fn timing_terms_anew(row: &mut [u64], n: u64) -> Timed
    ensures value { result ≡ number_told (terms_reply n (length row.old)) }
    ensures writes { row.new ≡ row_after (terms_reply n (length row.old)) (term_list shoushi n) row.old }
{
    if LAST_YEAR < n {
        return Timed::from(Err(Refusal::NoYear));
    }
    if row.len() < TERMS as usize {
        return Timed::from(Err(Refusal::ShortRow));
    }
    for (i, slot) in row[..TERMS as usize].iter_mut().enumerate() {
        *slot = term_time(n, i as u64);
    }
    Timed::from(Ok(TERMS))
}

impl From<Result<u64, Refusal>> for Timed {
    ghost from_gives = { λ a told. told ≡ number_told (answer_said a) };

    fn from(a: Result<u64, Refusal>) -> Timed {
        match a {
            Ok(number) => Timed { refused: 0, number },
            Err(r) => Timed {
                refused: r as u64,
                number: 0,
            },
        }
    }
}
