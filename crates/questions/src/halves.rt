// The inequalities and the motion asked directly: a half, and a time or a whole limit in it.
ghost use Rattle.std.specs.Prelude.{List, ℕ};
ghost use Rattle.words.specs.Numbers.{part_of, rest_of, numbers_of};
ghost use Rattle.questions.specs.DeskReply.{Answers};
ghost use Rattle.questions.specs.Question.{◌among◌, with_half, on_half};

use crate::DeskAnswer;
use inequalities::limits::LunarHalf;
use inequalities::lunar::lunar_at;
use inequalities::motions::motion_at;
use inequalities::solar::{SolarHalf, solar_at};
use rows::Refusal;
use words::Numbers;

// After the half there is one number.
#[tactic(auto, using(crate::proofs::NoText::no_half), unfolding(rows::specs::Row::over))]
pub(crate) fn on_half(word: &str, rest: &[u8]) -> DeskAnswer<Refusal>
    ensures { (row : List ℕ) → Answers (on_half word.now (part_of rest.now) (numbers_of (rest_of rest.now))) result row row }
{
    let Some(Numbers::One(t)) = words::numbers_in(words::rest_in(rest)) else {
        return DeskAnswer::Malformed;
    };
    match str::from_utf8(words::part_in(rest)) {
        Ok(half) => with_half(word, half, t),
        Err(_) => DeskAnswer::Malformed,
    }
}

#[tactic(auto, using(words::proofs::Same::alike, words::proofs::Same::unlike), unfolding(crate::specs::Question::solar_in, crate::specs::Question::lunar_in, crate::specs::Question::motion_in, crate::specs::Question::with_half, words::specs::Choice::chosen, rows::specs::Row::over))]
fn with_half(word: &str, half: &str, t: u64) -> DeskAnswer<Refusal>
    ensures { (row : List ℕ) → Answers (word.now among with_half half.now t) result row row }
{
    match (word, half) {
        ("solar-at", "fast") => DeskAnswer::Signed(solar_at(SolarHalf::Fast, t)),
        ("solar-at", "slow") => DeskAnswer::Signed(solar_at(SolarHalf::Slow, t)),
        ("lunar-at", "quick") => DeskAnswer::Signed(lunar_at(LunarHalf::Quick, t)),
        ("lunar-at", "tardy") => DeskAnswer::Signed(lunar_at(LunarHalf::Tardy, t)),
        ("motion-at", "quick") => DeskAnswer::Number(motion_at(LunarHalf::Quick, t)),
        ("motion-at", "tardy") => DeskAnswer::Number(motion_at(LunarHalf::Tardy, t)),
        _ => DeskAnswer::Malformed,
    }
}
