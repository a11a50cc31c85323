// The functions of `timing`, exported to C.
#![tactic(auto)]

ghost use Rattle.std.specs.Prelude.{◌≡◌, ◌/◌, length};
ghost use Rattle.measure.specs.Epoch.{shoushi};
ghost use Rattle.rows.specs.Row.{row_after};
ghost use Rattle.seasons.specs.Terms.{term_list, terms_reply};
ghost use Rattle.moons.specs.TrueMoon.{true_reply};
ghost use Rattle.edition.specs.Edition.{calendar};
ghost use Rattle.lists.specs.Records.{record_width};
ghost use Rattle.lists.specs.Lists.{run_of, run_reply};
ghost use Rattle.timing.specs.Timed.{number_told};

use timing::Timed;

// The true moon's running time.
#[unsafe(no_mangle)]
pub extern "C" fn timing_true_moon(l: u64, q: u64) -> Timed
    ensures { result ≡ number_told (true_reply shoushi l q) }
{
    timing::timing_true_moon(l, q)
}

// The records of so many years; how many there are.
#[unsafe(no_mangle)]
pub extern "C" fn timing_run(row: &mut [u64], n: u64, count: u64) -> Timed
    ensures value { result ≡ number_told (run_reply shoushi n count (length row.old / record_width)) }
    ensures writes { row.new ≡ row_after (run_reply shoushi n count (length row.old / record_width)) (run_of (calendar shoushi) n count) row.old }
{
    timing::timing_run(row, n, count)
}

// The terms of a year, carried from one to the next; how many there are.
#[unsafe(no_mangle)]
pub extern "C" fn timing_terms(row: &mut [u64], n: u64) -> Timed
    ensures value { result ≡ number_told (terms_reply n (length row.old)) }
    ensures writes { row.new ≡ row_after (terms_reply n (length row.old)) (term_list shoushi n) row.old }
{
    timing::timing_terms(row, n)
}

// The same, each multiplied anew: what carrying them is timed against.
#[unsafe(no_mangle)]
pub extern "C" fn timing_terms_anew(row: &mut [u64], n: u64) -> Timed
    ensures value { result ≡ number_told (terms_reply n (length row.old)) }
    ensures writes { row.new ≡ row_after (terms_reply n (length row.old)) (term_list shoushi n) row.old }
{
    timing::timing_terms_anew(row, n)
}
