// From a line of text to the answer that it gets. Where a list is asked for, its numbers go into a lent row.
#![tactic(auto)]

mod counted;
mod halves;
mod marks;

ghost use Rattle.std.specs.Prelude.{length};
ghost use Rattle.words.specs.Numbers.{numbers_of};
ghost use Rattle.measure.specs.Epoch.{shoushi};
ghost use Rattle.questions.specs.DeskReply.{Answers};
ghost use Rattle.questions.specs.Question.{on_numbers, reply_to};

use measure::Name;
use months::Month;
use remainders::Hour;
use rows::Refusal;
use words::Numbers;

// The calendar's answer, by the kind of what was asked for, with what tells of a refusal.
#[derive(Clone, Copy)]
pub enum DeskAnswer<R> {
    // No question: a kind like the others, since a line is written for it too.
    Malformed,
    Number(Result<u64, R>),
    // A running time.
    Moment(Result<u64, R>),
    Signed(Result<i64, R>),
    // The month of a day.
    Month(Result<Month, R>),
    // The name of a day.
    Name(Name),
    // A double-hour with its ke.
    Hour(Result<Hour, R>),
    // Days to add.
    Days(Result<Option<u64>, R>),
    // How many numbers, records or years stand in the lent row: the terms of a year, its months, those of a run of years, and the years that
    // agree with a torn sheet.
    Terms(Result<u64, R>),
    Year(Result<u64, R>),
    Years(Result<u64, R>),
    Sheet(Result<u64, R>),
    Constants,
    Help,
}

// The longest line that is answered.
pub const LONGEST: usize = 1_023;

// The answer to a line: its first word says what is asked, and the rest of what. A list goes into the row from its start; a row too short for
// it is refused with 4.
#[tactic(auto, using(words::proofs::Same::alike, words::proofs::Same::unlike, crate::proofs::NoText::no_word), unfolding(crate::specs::Question::reply_to, rows::specs::Row::over))]
pub fn ask(line: &[u8], row: &mut [u64]) -> DeskAnswer<Refusal>
    ensures { Answers (reply_to shoushi (length row.old) line.now) result row.old row.new }
{
    if line.len() > LONGEST {
        return DeskAnswer::Malformed;
    }
    let rest = words::after_word(line);
    match str::from_utf8(words::word_in(line)) {
        Ok("sheet") => marks::on_marks(rest, row),
        Ok(word) => by_numbers(word, rest, row),
        Err(_) => DeskAnswer::Malformed,
    }
}

// The numbers are read once. Where the rest is no numbers, it starts with a half.
fn by_numbers(word: &str, rest: &[u8], row: &mut [u64]) -> DeskAnswer<Refusal>
    ensures { Answers (on_numbers shoushi (length row.old) word.now rest.now (numbers_of rest.now)) result row.old row.new }
{
    match words::numbers_in(rest) {
        Some(Numbers::Nothing) => counted::alone(word),
        Some(Numbers::One(n)) => counted::with_one(word, n, row),
        Some(Numbers::Two(n, i)) => counted::with_two(word, n, i, row),
        Some(Numbers::Three(n, i, p)) => counted::with_three(word, n, i, p),
        None => halves::on_half(word, rest),
    }
}
