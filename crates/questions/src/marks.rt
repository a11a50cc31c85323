// A torn sheet by its words: the marks that a text gives, and the years that agree with them.
ghost use Rattle.std.specs.Prelude.{◌≡◌, None, length};
ghost use Rattle.measure.specs.Epoch.{shoushi};
ghost use Rattle.words.specs.Choice.{chosen};
ghost use Rattle.questions.specs.DeskReply.{Answers};
ghost use Rattle.questions.specs.MarkWords.{showing, mark_of, after_mark, marks_in, sheet_read};
ghost use Rattle.questions.specs.Question.{on_marks};

use crate::DeskAnswer;
use rows::Refusal;
use sheets::{Mark, Sheet, Shown};
use words::decimals::number_in;
use words::{part_in, rest_in};

// The years that agree with the marks of a text, in the row. A text that is not all marks is no sheet.
#[tactic(auto, using(crate::proofs::SheetLaws::no_sheet), unfolding(rows::specs::Row::over))]
pub(crate) fn on_marks(text: &[u8], row: &mut [u64]) -> DeskAnswer<Refusal>
    ensures { Answers (on_marks shoushi (length row.old) (marks_in text.now)) result row.old row.new }
{
    match sheet_in(text) {
        Some(sheet) => DeskAnswer::Sheet(sheets::years_for(sheet, row)),
        None => DeskAnswer::Sheet(Err(Refusal::BadLine)),
    }
}

// The sheet with the marks of a text that is nothing but marks.
#[tactic(auto, using(crate::proofs::MarkLaws::after_shorter, crate::proofs::MarkLaws::nothing_read, crate::proofs::MarkLaws::read_more))]
fn sheet_in(text: &[u8]) -> Option<Sheet>
    ensures { result ≡ sheet_read (marks_in text.now) }
{
    let mut sheet = sheets::blank();
    let mut left = text;
    // A mark alone says where the next begins: no iterator of the library does.
    while !left.is_empty() {
        sheet.lay(mark_in(left)?);
        left = after_mark(left);
    }
    Some(sheet)
}

// The mark with which a text starts.
#[tactic(auto, using(words::proofs::Same::alike, words::proofs::Same::unlike, crate::proofs::NoText::no_mark_word), unfolding(crate::specs::MarkWords::mark_of))]
fn mark_in(s: &[u8]) -> Option<Mark>
    ensures { result ≡ mark_of s.now }
{
    let rest = rest_in(s);
    let place = number_in(part_in(rest))?;
    match str::from_utf8(part_in(s)).ok()? {
        "leap" => Some(Mark {
            place,
            shown: Shown::Leap,
        }),
        word => shown_by(word, place, number_in(part_in(rest_in(rest)))?),
    }
}

// What follows it: a leap mark has no number after its place.
#[tactic(auto, using(words::proofs::Same::alike, words::proofs::Same::unlike, words::proofs::Chosen::not_ascii), unfolding(crate::specs::MarkWords::after_mark))]
fn after_mark(s: &[u8]) -> &[u8]
    ensures { result.now ≡ after_mark s.now }
{
    let rest = rest_in(rest_in(s));
    match str::from_utf8(part_in(s)) {
        Ok("leap") => rest,
        _ => rest_in(rest),
    }
}

// The mark of a word that shows a number.
#[tactic(auto, using(words::proofs::Same::alike, words::proofs::Same::unlike), unfolding(crate::specs::MarkWords::showing, words::specs::Choice::chosen))]
fn shown_by(word: &str, place: u64, n: u64) -> Option<Mark>
    ensures { result ≡ chosen None word.now (showing place n) }
{
    let shown = match word {
        "name" => Shown::Name(n),
        "stem" => Shown::Stem(n),
        "branch" => Shown::Branch(n),
        "length" => Shown::Length(n),
        _ => return None,
    };
    Some(Mark { place, shown })
}
