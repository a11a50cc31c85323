// The line of text that is written for each answer.
#![tactic(auto)]

mod line_texts;
mod list_texts;

ghost use Rattle.std.specs.Prelude.{◌≡◌, ◌≤◌, length};
ghost use Rattle.rows.specs.Row.{over};
ghost use Rattle.questions.specs.DeskReply.{desk_said, Lies};
ghost use Rattle.replies.specs.LineText.{line_room, FillsLine};
ghost use Rattle.replies.specs.ReplyText.{constants_text, help_text, reply_text, room_of};

use crate::line_texts::{
    Line, front, put, put_days, put_hour, put_moment, put_month, put_name, put_number, put_refusal,
    put_signed,
};
use crate::list_texts::put_items;
use lists::year_rows::RECORD_WIDTH;
use questions::DeskAnswer;
use rows::{Numbered, Refusal};

// The line of an answer, from the row's start; how many bytes it has. Whoever asks has shown that the row has room for it.
#[tactic(auto, using(crate::proofs::LineLaws::over_line, crate::proofs::ListTextLaws::few_fit, crate::proofs::ListTextLaws::item_takes), unfolding(crate::specs::ReplyText::reply_text, crate::specs::ReplyText::room_of, texts::specs::Text::holes, texts::specs::Text::numbers_taken))]
pub fn put_reply<R: Numbered>(r: DeskAnswer<R>, numbers: &[u64], row: &mut [u8]) -> usize
    requires { (line_room ≤ length row.old) × Lies R.number r (length numbers.now) × (room_of (desk_said R.number r numbers.now) ≤ length row.old) }
    ensures value { result ≡ length (reply_text (desk_said R.number r numbers.now)) }
    ensures writes { row.new ≡ over (reply_text (desk_said R.number r numbers.now)) row.old }
{
    match r {
        DeskAnswer::Malformed => put_refusal(Refusal::BadLine.number(), front(row)),
        DeskAnswer::Number(Ok(n)) => put_number(n, front(row)),
        DeskAnswer::Moment(Ok(t)) => put_moment(t, front(row)),
        DeskAnswer::Signed(Ok(z)) => put_signed(z, front(row)),
        DeskAnswer::Month(Ok(m)) => put_month(m, front(row)),
        DeskAnswer::Name(n) => put_name(n, front(row)),
        DeskAnswer::Hour(Ok(h)) => put_hour(h, front(row)),
        DeskAnswer::Days(Ok(d)) => put_days(d, front(row)),
        DeskAnswer::Terms(Ok(count)) | DeskAnswer::Sheet(Ok(count)) => {
            put_items(b" %", 1, count as usize, numbers, row)
        }
        DeskAnswer::Year(Ok(count)) | DeskAnswer::Years(Ok(count)) => {
            put_items(b" %:%:%:%", RECORD_WIDTH, count as usize, numbers, row)
        }
        DeskAnswer::Constants => put_constants(front(row)),
        DeskAnswer::Help => put_help(front(row)),
        DeskAnswer::Number(Err(r))
        | DeskAnswer::Moment(Err(r))
        | DeskAnswer::Signed(Err(r))
        | DeskAnswer::Month(Err(r))
        | DeskAnswer::Hour(Err(r))
        | DeskAnswer::Days(Err(r))
        | DeskAnswer::Terms(Err(r))
        | DeskAnswer::Sheet(Err(r))
        | DeskAnswer::Year(Err(r))
        | DeskAnswer::Years(Err(r)) => put_refusal(r.number(), front(row)),
    }
}

#[tactic(auto, unfolding(crate::specs::ReplyText::constants_text))]
fn put_constants(line: &mut Line) -> usize
    ensures value { result ≡ length constants_text }
    ensures writes { FillsLine constants_text line.old line.new }
{
    let values = [
        measure::DAY,
        measure::FEN,
        measure::MIAO,
        measure::YEAR,
        measure::HALF_YEAR,
        measure::MONTH,
        measure::QUARTER_STEP,
        measure::TERM_STEP,
        measure::PENTAD_STEP,
        measure::EARTH_STEP,
        measure::ANOMALISTIC_MONTH,
        measure::ANOMALISTIC_HALF,
        measure::SOLSTICE_EPOCH,
        measure::LEAP_EPOCH,
        measure::ANOMALY_EPOCH,
    ];
    put(
        b"day=% fen=% miao=% \
          year=% half-year=% month=% quarter=% \
          term=% pentad=% earth=% \
          anomalistic-month=% anomalistic-half=% \
          solstice-epoch=% leap-epoch=% anomaly-epoch=%\n",
        &values,
        line,
    )
}

#[tactic(auto, unfolding(crate::specs::ReplyText::help_text, texts::specs::Text::filled, texts::specs::Text::piece, texts::specs::Text::numbers_taken))]
fn put_help(line: &mut Line) -> usize
    ensures value { result ≡ length help_text }
    ensures writes { FillsLine help_text line.old line.new }
{
    put(
        b"questions: constants, \
          solstice N, term N I, pentad N I P, earth N I, terms N, \
          mean L Q, true L Q, solar L Q, lunar L Q, correction L Q, motion L Q, \
          solar-at fast|slow T, lunar-at quick|tardy T, motion-at quick|tardy K, \
          name D, hour R, extra R, vanishing R, \
          head N, day D, back N P M, year N, years N C, \
          sheet [name P N|stem P S|branch P B|length P D|leap P].., \
          help\n",
        &[],
        line,
    )
}
