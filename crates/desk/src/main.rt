// The desk: answers the calendar's questions, from its arguments as one line when it has any, else one a line from standard input.
// The input comes by blocks, and each line is answered as it ends.
#![tactic(auto)]

ghost use Rattle.std.specs.Prelude.{◌≡◌, ℕ, suc, ◌+◌, ◌≤◌, ◌<◌, List, [], length, take, Option, unwrap_or};
ghost use Rattle.std.specs.Io.KnownBytes.{ReadConsumes};
ghost use Rattle.rows.specs.Row.{over};
ghost use Rattle.measure.specs.Epoch.{shoushi};
ghost use Rattle.reads.specs.Given.{Within, block_room};
ghost use Rattle.ask.specs.AnswerText.{answer_text};
ghost use Rattle.desk.specs.Input.{line_room, with_more, last_text, Left, with_blank, with_argument, Begins, AskedBy};

use ask::YEARS_ROOM;
use frames::LINE_END;
use reads::{BLOCK, ReadFailed};
use std::env::FillError;
use std::io::Read;
use std::marker::Model;
use std::rt::Env;

// Room for a line: one byte more than the longest that is answered, so that a longer one is seen to be so.
const LINE: usize = questions::LONGEST + 1;

// A line, as far as there is room for it.
#[derive(Drop)]
struct Line {
    row: [u8; LINE],
    kept: usize,
}

impl Model for Line {
    ghost use Rattle.std.specs.Prelude.{ℕ, ◌+◌, ◌≤◌, List, take};
    ghost use Rattle.questions.specs.Question.{longest};

    ghost Value = { List ℕ };

    ghost view = { λ l. take l.kept l.row };

    ghost invariant = { λ l. l.kept ≤ longest + 1 };
}

impl Line {
    fn new() -> Self
        ensures { result ≡ [] }
    {
        Line {
            row: [0; LINE],
            kept: 0,
        }
    }

    fn bytes(&self) -> &[u8]
        ensures { result.now ≡ self.now }
    {
        &self.row[..self.kept]
    }

    fn clear(&mut self)
        ensures { self.new ≡ [] }
    {
        self.kept = 0;
    }

    // One byte more, as far as there is room.
    fn keep(&mut self, b: u8)
        ensures { self.new ≡ with_more line_room self.old b }
    {
        self.kept = keep(&mut self.row, self.kept, b);
    }

    // A blank before argument i, unless it is the first.
    fn blank_before(&mut self, i: usize)
        ensures { self.new ≡ with_blank line_room i self.old }
    {
        self.kept = blank_before(&mut self.row, self.kept, i);
    }

    // Argument i after the bytes that are kept.
    fn join(&mut self, rt: &impl Env, i: usize)
        ensures { Begins self.new (with_blank line_room i self.old) }
    {
        self.blank_before(i);
        let from = self.kept;
        let got = rt.arg(i, &mut self.row[from..]).ok();
        self.kept = with_argument(got, from, LINE);
    }
}

// The arguments in one line, and how many they are: each follows the one before it, and none is passed over.
#[derive(Drop)]
struct Joined {
    line: Line,
    arguments: usize,
}

impl Joined {
    fn new() -> Self
        ensures line { result.line ≡ [] }
        ensures none { result.arguments ≡ 0 }
    {
        Joined {
            line: Line::new(),
            arguments: 0,
        }
    }

    // The argument after those that are joined.
    fn join(&mut self, rt: &impl Env, i: usize)
        requires { i ≡ suc self.old.arguments }
        ensures begins { Begins self.new.line (with_blank line_room i self.old.line) }
        ensures counted { self.new.arguments ≡ i }
    {
        self.line.join(rt, i);
        self.arguments = i;
    }
}

// One byte more of a line; how many are kept then. A full buffer drops the byte: a line so long is refused.
// Of the row and not of `Line`: so its contract says every byte, also those past what is kept.
#[tactic(auto, using(crate::proofs::Kept::with_room, crate::proofs::Kept::full))]
fn keep(line: &mut [u8], kept: usize, b: u8) -> usize
    requires { kept ≤ length line.old }
    ensures within { result ≤ length line.old }
    ensures value { result ≡ length (with_more (length line.old) (take kept line.old) b) }
    ensures writes { line.new ≡ over (with_more (length line.old) (take kept line.old) b) line.old }
{
    if kept < line.len() {
        line[kept] = b;
        return kept + 1;
    }
    kept
}

// A blank before each argument but the first; of the row, as `keep` is.
#[tactic(auto, using(crate::proofs::Kept::over_itself))]
fn blank_before(line: &mut [u8], n: usize, i: usize) -> usize
    requires { n ≤ length line.old }
    ensures within { result ≤ length line.old }
    ensures value { result ≡ length (with_blank (length line.old) i (take n line.old)) }
    ensures writes { line.new ≡ over (with_blank (length line.old) i (take n line.old)) line.old }
{
    if i > 1 {
        return keep(line, n, b' ');
    }
    n
}

// How many bytes a line has with an argument after its first. Where the argument did not fit the line is full, and is refused.
fn with_argument(got: Option<usize>, from: usize, room: usize) -> usize
    requires { from + unwrap_or got 0 ≤ room }
    ensures value { result ≡ with_argument got from room }
    ensures bounds { (from ≤ result) × (result ≤ room) }
{
    match got {
        Some(n) => from + n,
        None => room,
    }
}

// How a turn ends: with a line that was begun, at the input's end, or by a failed write.
#[derive(Clone, Copy)]
enum Turn {
    Begun,
    Ended,
    CutShort,
}

// The text of the reply to a line, from the buffer's start; how many bytes it has.
#[tactic(auto, using(ask::proofs::AnswerLaws::answered_whole, rows::proofs::Row::over_least))]
fn answered(line: &[u8], buf: &mut [u8; YEARS_ROOM]) -> usize
    ensures within { result ≤ length buf.old }
    ensures value { result ≡ length (answer_text shoushi line.now) }
    ensures buf_after { buf.new ≡ over (answer_text shoushi line.now) buf.old }
{
    let written = ask::lengadriu_ask(line, buf);
    written.bytes as usize
}

// Writes out; whether all of it went through. Where it did not, standard error says so, and the program ends.
// `month_lines` has it too: shared it would be public, and no contract can say what is written.
fn write_out(rt: &(impl Print + Eprint), out: &[u8]) -> bool {
    let ok = rt.write_all(out).is_ok();
    if !ok {
        let _ = rt.eprintln("desk: the output is cut short");
    }
    ok
}

// Answers a line; whether the reply was written out.
fn answer_line(rt: &(impl Print + Eprint), line: &[u8], buf: &mut [u8; YEARS_ROOM]) -> bool {
    let n = answered(line, buf);
    write_out(rt, &buf[..n])
}

// Answers the lines that end in a block, and keeps what it has of the next. A failed write ends it.
fn answer_block(
    rt: &(impl Print + Eprint),
    block: &[u8],
    line: &mut Line,
    buf: &mut [u8; YEARS_ROOM],
) -> Turn
    requires { 0 < length block.now }
    ensures { Left result line.new line_room line.old block.now }
{
    for b in block {
        if *b == LINE_END {
            if !answer_line(rt, line.bytes(), buf) {
                return Turn::CutShort;
            }
            line.clear();
        } else {
            line.keep(*b);
        }
    }
    Turn::Begun
}

// The text of the reply to the last line, where one was begun; how many bytes it has.
#[tactic(auto, using(crate::proofs::Kept::no_line, crate::proofs::Kept::a_line, rows::proofs::Row::over_is))]
fn last_reply(line: &[u8], buf: &mut [u8; YEARS_ROOM]) -> usize
    ensures within { result ≤ length buf.old }
    ensures value { result ≡ length (last_text line.now) }
    ensures buf_after { buf.new ≡ over (last_text line.now) buf.old }
{
    if line.is_empty() {
        return 0;
    }
    answered(line, buf)
}

// A block as it was read. Where nothing was, the input has ended, and so has a line that was begun.
fn answer_read(
    rt: &(impl Print + Eprint),
    block: &[u8],
    line: &mut Line,
    buf: &mut [u8; YEARS_ROOM],
) -> Turn
    ensures { Left result line.new line_room line.old block.now }
{
    if block.is_empty() {
        let n = last_reply(line.bytes(), buf);
        write_out(rt, &buf[..n]);
        return Turn::Ended;
    }
    answer_block(rt, block, line, buf)
}

// Reads once: what is read are the input's next bytes, and none only where it has ended. `month_lines` reads so too. `reads::read_once` is for other callers:
// here `given` says what the read answered, by a contract that determines it.
fn read_block<R: Read>(input: &mut R, block: &mut [u8]) -> Result<usize, ReadFailed>
    requires { block_room ≡ length block.old }
    ensures within { Within result (length block.old) }
    ensures consumes { ReadConsumes (R.remaining input.old) (R.remaining input.new) result block.new }
{
    let answered = match input.read(block) {
        Ok(n) => n as isize,
        Err(_) => -1,
    };
    reads::given(answered, block)
}

// Nothing says that the input ends, so the turns have a number that no run uses up. A failed read is told, and a line that was begun has
// no reply then: its end was not seen.
fn answer_lines(rt: &(impl Print + Eprint), input: &mut impl Read, buf: &mut [u8; YEARS_ROOM]) {
    let mut block = [0; BLOCK];
    let mut line = Line::new();
    for _ in 0..u64::MAX {
        let Ok(read) = read_block(input, &mut block) else {
            let _ = rt.eprintln("desk: the input could not be read to its end");
            return;
        };
        let Turn::Begun = answer_read(rt, &block[..read], &mut line, buf) else {
            return;
        };
    }
}

// How many arguments there are, the program's own name among them.
fn argument_count(rt: &impl Env) -> usize {
    let mut first = [0u8; 1];
    for i in 0..usize::MAX {
        if let Err(FillError::NotPresent) = rt.arg(i, &mut first) {
            return i;
        }
    }
    usize::MAX
}

// The arguments as one line, where there are any. The first is the program's own name.
fn join_arguments(rt: &impl Env, count: usize) -> Option<Joined>
    ensures { AskedBy result count }
{
    if count <= 1 {
        return None;
    }
    let mut asked = Joined::new();
    for i in 1..count {
        asked.join(rt, i);
    }
    Some(asked)
}

// A question of the arguments where there are any, else those of the input's lines.
fn answer(rt: &(impl Env + Print + Eprint), input: &mut impl Read, buf: &mut [u8; YEARS_ROOM]) {
    match join_arguments(rt, argument_count(rt)) {
        Some(asked) => {
            answer_line(rt, asked.line.bytes(), buf);
        }
        None => answer_lines(rt, input, buf),
    }
}

fn main(rt: HostRuntime) {
    let mut input = rt.stdin();
    let mut buf = [0; YEARS_ROOM];
    answer(&rt, &mut input, &mut buf);
}
