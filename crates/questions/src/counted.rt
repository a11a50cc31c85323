// The questions by how many numbers follow the word: four lists, each with words, numbers and answers of its own.
#![tactic(auto, using(words::proofs::Same::alike, words::proofs::Same::unlike), unfolding(crate::specs::Question::alone, crate::specs::Question::with_one, crate::specs::Question::with_two, crate::specs::Question::with_three, words::specs::Choice::chosen, rows::specs::Row::over))]

ghost use Rattle.std.specs.Prelude.{List, ℕ, length};
ghost use Rattle.measure.specs.Epoch.{shoushi};
ghost use Rattle.questions.specs.DeskReply.{Answers};
ghost use Rattle.questions.specs.Question.{◌among◌, alone, with_one, with_two, with_three};

use crate::DeskAnswer;
use rows::Refusal;

pub(crate) fn alone(word: &str) -> DeskAnswer<Refusal>
    ensures { (row : List ℕ) → Answers (word.now among alone) result row row }
{
    match word {
        "constants" => DeskAnswer::Constants,
        "help" => DeskAnswer::Help,
        _ => DeskAnswer::Malformed,
    }
}

pub(crate) fn with_one(word: &str, n: u64, row: &mut [u64]) -> DeskAnswer<Refusal>
    ensures { Answers (word.now among with_one shoushi (length row.old) n) result row.old row.new }
{
    match word {
        "solstice" => DeskAnswer::Moment(seasons::solstice(n)),
        "terms" => DeskAnswer::Terms(seasons::terms(n, row)),
        "head" => DeskAnswer::Number(months::head(n)),
        "year" => DeskAnswer::Year(lists::list(n, row)),
        "day" => DeskAnswer::Month(months::month_of(n)),
        "name" => DeskAnswer::Name(measure::name_of(n)),
        "hour" => DeskAnswer::Hour(remainders::double_hour(n)),
        "extra" => DeskAnswer::Days(remainders::extra_day(n)),
        "vanishing" => DeskAnswer::Days(remainders::vanishing_day(n)),
        _ => DeskAnswer::Malformed,
    }
}

pub(crate) fn with_two(word: &str, n: u64, i: u64, row: &mut [u64]) -> DeskAnswer<Refusal>
    ensures { Answers (word.now among with_two shoushi (length row.old) n i) result row.old row.new }
{
    match word {
        "term" => DeskAnswer::Moment(seasons::term(n, i)),
        "earth" => DeskAnswer::Moment(seasons::earth(n, i)),
        "years" => DeskAnswer::Years(lists::run(n, i, row)),
        "mean" => DeskAnswer::Moment(moons::mean(n, i)),
        "true" => DeskAnswer::Moment(moons::true_moon(n, i)),
        "motion" => DeskAnswer::Number(moons::motion(n, i)),
        "solar" => DeskAnswer::Signed(moons::solar(n, i)),
        "lunar" => DeskAnswer::Signed(moons::lunar(n, i)),
        "correction" => DeskAnswer::Signed(moons::correction(n, i)),
        _ => DeskAnswer::Malformed,
    }
}

pub(crate) fn with_three(word: &str, n: u64, i: u64, p: u64) -> DeskAnswer<Refusal>
    ensures { (row : List ℕ) → Answers (word.now among with_three shoushi n i p) result row row }
{
    match word {
        "pentad" => DeskAnswer::Moment(seasons::pentad(n, i, p)),
        "back" => DeskAnswer::Number(months::dates::day_at(n, i, p)),
        _ => DeskAnswer::Malformed,
    }
}
