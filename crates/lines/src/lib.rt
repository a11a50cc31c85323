// The replies to hexadecimal lines: a day in and a month out.
#![tactic(auto)]

pub mod blocks;

ghost use Rattle.std.specs.Prelude.{◌≡◌, ◌≤◌, length};
ghost use Rattle.rows.specs.Reply.{answer_said};
ghost use Rattle.rows.specs.Row.{over, row_after};
ghost use Rattle.measure.specs.Epoch.{shoushi};
ghost use Rattle.months.specs.Month.{month_answer_said};
ghost use Rattle.lines.specs.Line.{line_reply, reply_line, output, output_reply};

use frames::{DAY_DIGITS, day_asked, put_month_line, put_refusal_line};
use months::Month;
use rows::{Numbered, Refusal};

pub const REPLY_ROOM: usize = 3;

// The replies to all lines of the input, from the row's start; how many bytes they have. A row with less than three bytes for each
// byte of the input is refused with 4.
#[tactic(auto, unfolding(crate::specs::Line::output_reply))]
pub fn replies(input: &[u8], out: &mut [u8]) -> Result<u64, Refusal>
    ensures value { answer_said result ≡ output_reply shoushi input.now (length out.old) }
    ensures writes { out.new ≡ row_after (output_reply shoushi input.now (length out.old)) (output shoushi input.now) out.old }
{
    if out.len() / REPLY_ROOM < input.len() {
        return Err(Refusal::ShortRow);
    }
    Ok(blocks::answer_whole_lines(input, out) as u64)
}

// The month that a line asks for. A malformed line is refused with 5, before a day outside the calendar with 3.
#[tactic(auto, using(frames::proofs::DayLineLaws::only_bad, crate::proofs::LineLaws::bad_line_lem, crate::proofs::LineLaws::asked_reply))]
fn month_asked(line: &[u8]) -> Result<Month, Refusal>
    ensures { month_answer_said result ≡ line_reply shoushi line.now }
{
    months::month_of(day_asked(line)?)
}

// The reply to one line, at the row's start; how many bytes it has.
fn put_reply_line(line: &[u8], out: &mut [u8]) -> usize
    requires { length (reply_line shoushi line.now) ≤ length out.old }
    ensures value { result ≡ length (reply_line shoushi line.now) }
    ensures writes { out.new ≡ over (reply_line shoushi line.now) out.old }
{
    match month_asked(line) {
        Ok(month) => put_month_line(month, DAY_DIGITS, out),
        Err(r) => put_refusal_line(r.number(), out),
    }
}
