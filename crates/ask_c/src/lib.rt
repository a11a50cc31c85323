// The function of `ask`, exported to C: ask/ask.h declares it.
#![tactic(auto)]

ghost use Rattle.std.specs.Prelude.{◌≡◌, length};
ghost use Rattle.rows.specs.Row.{row_after};
ghost use Rattle.measure.specs.Epoch.{shoushi};
ghost use Rattle.ask.specs.AnswerText.{answer_text, answer_reply};
ghost use Rattle.ask.specs.Written.{written_told};

use ask::Written;

// The text that the desk replies to a line, with its line end, from the row's start; a question that it refuses has a text too. A row without
// the room that a line asks for is refused with 4.
#[unsafe(no_mangle)]
pub extern "C" fn lengadriu_ask(line: &[u8], row: &mut [u8]) -> Written
    ensures value { result ≡ written_told (answer_reply shoushi line.now (length row.old)) }
    ensures writes { row.new ≡ row_after (answer_reply shoushi line.now (length row.old)) (answer_text shoushi line.now) row.old }
{
    ask::lengadriu_ask(line, row)
}
