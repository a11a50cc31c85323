// A line in, the text of its reply out: what the desk asks, and a viewer or a page. The question is answered by `questions`, and its line
// written by `replies`.
#![tactic(auto)]

ghost use Rattle.std.specs.Prelude.{List, ◌≡◌, ◌≤◌, ℕ, length};
ghost use Rattle.rows.specs.Reply.{number_of, answer_said};
ghost use Rattle.rows.specs.Row.{row_after};
ghost use Rattle.measure.specs.Epoch.{shoushi};
ghost use Rattle.words.specs.Line.{word_of};
ghost use Rattle.words.specs.Text.{◌is◌};
ghost use Rattle.questions.specs.DeskReply.{desk_said, Lies};
ghost use Rattle.questions.specs.Question.{reply_to};
ghost use Rattle.replies.specs.ReplyText.{reply_text, room_of};
ghost use Rattle.ask.specs.AnswerText.{most_numbers, reply_reply, answer_text, answer_reply};
ghost use Rattle.ask.specs.Written.{written_told};

use lists::YEAR_NUMBERS;
use measure::LAST_YEAR;
use questions::DeskAnswer;
use rows::Refusal;

// Room for one line, for the line of a sheet's years, and for the records of all years.
pub const LINE_ROOM: usize = 16_384;

pub const SHEET_ROOM: usize = 65_536;

pub const YEARS_ROOM: usize = 2_097_152;

// Room for a number for each year, and for the months of all.
const YEARS: usize = LAST_YEAR as usize + 1;

const MOST_NUMBERS: usize = YEARS * YEAR_NUMBERS;

// How many bytes of text were written, with refused 0. Where the row has too little room refused is 4, and no byte was written.
// C reads it (ask.h), so that it is no Result.
#[repr(C)]
#[derive(Clone, Copy)]
pub struct Written {
    pub refused: u64,
    pub bytes: u64,
}

impl From<Result<u64, Refusal>> for Written {
    ghost from_gives = { λ a told. told ≡ written_told (answer_said a) };

    fn from(a: Result<u64, Refusal>) -> Written {
        match a {
            Ok(bytes) => Written { refused: 0, bytes },
            Err(r) => Written {
                refused: r as u64,
                bytes: 0,
            },
        }
    }
}

// The text that the desk replies to a line, with its line end, from the row's start; a question that it refuses has a text too. A row without
// the room that a line asks for is refused with 4.
#[tactic(auto, using(questions::proofs::Rooms::enough), unfolding(crate::specs::AnswerText::answer_reply, crate::specs::AnswerText::answer_text))]
pub fn lengadriu_ask(line: &[u8], row: &mut [u8]) -> Written
    ensures value { result ≡ written_told (answer_reply shoushi line.now (length row.old)) }
    ensures writes { row.new ≡ row_after (answer_reply shoushi line.now (length row.old)) (answer_text shoushi line.now) row.old }
{
    if asks_years(line) {
        Written::from(reply_within::<MOST_NUMBERS>(line, row))
    } else {
        Written::from(reply_within::<YEARS>(line, row))
    }
}

// How many bytes the text has, where a list has room for so many numbers. A function of its own, so that no line but `years` takes the room of all
// months on the stack.
#[inline(never)]
fn reply_within<const N: usize>(line: &[u8], row: &mut [u8]) -> Result<u64, Refusal>
    requires { N ≤ most_numbers }
    ensures value { answer_said result ≡ reply_reply (reply_to shoushi N line.now) (length row.old) }
    ensures writes { row.new ≡ row_after (reply_reply (reply_to shoushi N line.now) (length row.old)) (reply_text (reply_to shoushi N line.now)) row.old }
{
    let mut numbers = [0; N];
    let answer = questions::ask(line, &mut numbers);
    write_reply(answer, &numbers, row)
}

// Whether a line may ask for the months of many years: no other list is as long.
#[tactic(auto, using(words::proofs::Same::same_bytes))]
fn asks_years(line: &[u8]) -> bool
    ensures { result ≡ (word_of line.now is "years") }
{
    words::word_in(line) == b"years".as_slice()
}

// An answer's line, where the row has the room that it asks for.
#[tactic(auto, unfolding(crate::specs::AnswerText::reply_reply))]
fn write_reply(r: DeskAnswer<Refusal>, numbers: &[u64], row: &mut [u8]) -> Result<u64, Refusal>
    requires { Lies number_of r (length numbers.now) }
    ensures value { answer_said result ≡ reply_reply (desk_said number_of r numbers.now) (length row.old) }
    ensures writes { row.new ≡ row_after (reply_reply (desk_said number_of r numbers.now) (length row.old)) (reply_text (desk_said number_of r numbers.now)) row.old }
{
    if row.len() < room_for(r) {
        return Err(Refusal::ShortRow);
    }
    let n = replies::put_reply(r, numbers, row);
    Ok(n as u64)
}

// The room that an answer's line asks for, whatever its numbers are.
#[tactic(auto, unfolding(replies::specs::ReplyText::room_of))]
fn room_for(r: DeskAnswer<Refusal>) -> usize
    ensures { (numbers : List ℕ) → result ≡ room_of (desk_said number_of r numbers) }
{
    match r {
        DeskAnswer::Years(_) => YEARS_ROOM,
        DeskAnswer::Sheet(_) => SHEET_ROOM,
        _ => LINE_ROOM,
    }
}
