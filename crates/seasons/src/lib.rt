// The winter solstice, the terms with their pentads, and the days on which earth begins to rule.
#![tactic(auto)]

ghost use Rattle.std.specs.Prelude.{◌≡◌, ◌+◌, ◌≤◌, ◌<◌, length};
ghost use Rattle.rows.specs.Reply.{answer_said};
ghost use Rattle.measure.specs.Units.{last_year};
ghost use Rattle.measure.specs.Epoch.{shoushi};
ghost use Rattle.seasons.specs.Solstice.{solstice, solstice_reply};
ghost use Rattle.seasons.specs.Terms.{terms, term, term_reply, pentad_reply, earth_reply, term_list, terms_reply};
ghost use Rattle.rows.specs.Row.{over, row_after};

use measure::{EARTH_STEP, LAST_YEAR, PENTAD_STEP, SOLSTICE_EPOCH, TERM_STEP, TERMS, YEAR};
use rows::Refusal;

// The running time of the solstice that year n begins with. A year past the last is refused with 1.
#[tactic(auto, unfolding(crate::specs::Solstice::solstice_reply, crate::specs::Solstice::solstice))]
pub fn solstice(n: u64) -> Result<u64, Refusal>
    ensures { answer_said result ≡ solstice_reply shoushi n }
{
    if LAST_YEAR < n {
        return Err(Refusal::NoYear);
    }
    Ok(n * YEAR + SOLSTICE_EPOCH)
}

// The running time of term i of year n. After the year, a term past the last is refused with 2.
#[tactic(auto, unfolding(crate::specs::Terms::term_reply))]
pub fn term(n: u64, i: u64) -> Result<u64, Refusal>
    ensures { answer_said result ≡ term_reply shoushi n i }
{
    if LAST_YEAR < n {
        return Err(Refusal::NoYear);
    }
    if TERMS <= i {
        return Err(Refusal::Outside);
    }
    Ok(term_time(n, i))
}

// The running time of pentad p of term i of year n. After the year, a term or a pentad past its last is refused with 2.
#[tactic(auto, using(crate::proofs::TermLaws::term_most), unfolding(crate::specs::Terms::pentad_reply, crate::specs::Terms::pentad))]
pub fn pentad(n: u64, i: u64, p: u64) -> Result<u64, Refusal>
    ensures { answer_said result ≡ pentad_reply shoushi n i p }
{
    if LAST_YEAR < n {
        return Err(Refusal::NoYear);
    }
    if TERMS <= i {
        return Err(Refusal::Outside);
    }
    if 2 < p {
        return Err(Refusal::Outside);
    }
    Ok(term_time(n, i) + p * PENTAD_STEP)
}

// When earth begins to rule before middle term i of year n. After the year, a term that has no such day is refused with 2.
#[tactic(auto, using(crate::proofs::TermLaws::term_least), unfolding(crate::specs::Terms::earth_reply, crate::specs::Terms::earth))]
pub fn earth(n: u64, i: u64) -> Result<u64, Refusal>
    ensures { answer_said result ≡ earth_reply shoushi n i }
{
    if LAST_YEAR < n {
        return Err(Refusal::NoYear);
    }
    match i {
        2 | 8 | 14 | 20 => Ok(term_time(n, i) - EARTH_STEP),
        _ => Err(Refusal::Outside),
    }
}

// The running time of term i of year n, for callers that know both to be admitted: plain numbers, as this contract is public.
#[tactic(auto, unfolding(crate::specs::Terms::term, crate::specs::Solstice::solstice))]
pub fn term_time(n: u64, i: u64) -> u64
    requires { (n ≤ last_year + 1) × (i < terms) }
    ensures { result ≡ term shoushi n i }
{
    n * YEAR + SOLSTICE_EPOCH + i * TERM_STEP
}

// The terms of year n from the row's start; how many there are. After the year, a row that is too short is refused with 4.
#[tactic(auto, using(crate::proofs::TermLaws::terms_late, crate::proofs::TermLaws::terms_short, crate::proofs::TermLaws::terms_answered))]
pub fn terms(n: u64, row: &mut [u64]) -> Result<u64, Refusal>
    ensures value { answer_said result ≡ terms_reply n (length row.old) }
    ensures writes { row.new ≡ row_after (terms_reply n (length row.old)) (term_list shoushi n) row.old }
{
    if LAST_YEAR < n {
        return Err(Refusal::NoYear);
    }
    if row.len() < TERMS as usize {
        return Err(Refusal::ShortRow);
    }
    write_terms(n, row);
    Ok(TERMS)
}

// Each term is the one before it carried forward by one step, as learners add them up.
#[tactic(auto, using(crate::proofs::TermLaws::term_most, crate::proofs::TermLaws::term_next, crate::proofs::TermLaws::terms_written, rows::proofs::Row::put_listed, rows::proofs::Row::listed_none, rows::proofs::Row::over_is, crate::proofs::TermLaws::front_length))]
fn write_terms(n: u64, row: &mut [u64])
    requires { (n ≤ last_year) × (terms ≤ length row.old) }
    ensures { row.new ≡ over (term_list shoushi n) row.old }
{
    let mut carried = term_time(n, 0);
    for slot in &mut row[..TERMS as usize] {
        *slot = carried;
        carried += TERM_STEP;
    }
}
