// A block of the input: the lines that end in it are answered, and what the unfinished line needs is kept.
ghost use Rattle.std.specs.Prelude.{◌≡◌, ◌*◌, ◌≤◌, length, take, MatchOption};
ghost use Rattle.rows.specs.Row.{over};
ghost use Rattle.measure.specs.Epoch.{shoushi};
ghost use Rattle.lines.specs.Line.{output, reply_room};
ghost use Rattle.lines.specs.Block.{whole_length, NoEnd, LastEnd, kept_of, written, block_of};

use crate::put_reply_line;
use frames::{LINE_END, line_len, rest};

// A line of six bytes is refused, whatever follows.
const ENOUGH: usize = 6;

// How many bytes were written, and how many of an unfinished line stand at the buffer's start.
#[derive(Clone, Copy)]
pub struct Block {
    pub written: usize,
    pub kept: usize,
}

// Answers the lines that end in the first `have` bytes, from the row's start, and puts what is kept at the buffer's start. `have` stands
// beside the buffer, since the contract of this public function says what becomes of the rest of it.
pub fn answer_block(buf: &mut [u8], have: usize, out: &mut [u8]) -> Block
    requires { (have ≤ length buf.old) × (reply_room * length buf.old ≤ length out.old) }
    ensures value { result ≡ block_of (take have buf.old) }
    ensures writes { out.new ≡ over (written (take have buf.old)) out.old }
    ensures buf_after { buf.new ≡ over (kept_of (take have buf.old)) buf.old }
{
    let whole = whole_lines(&buf[..have]);
    let written = answer_whole_lines(&buf[..whole], out);
    let kept = (have - whole).min(ENOUGH);
    buf.copy_within(whole..whole + kept, 0);
    Block { written, kept }
}

// The replies to all lines, from the row's start; how many bytes they have. The row is a slice with its room asked for, as this contract is public.
pub fn answer_whole_lines(input: &[u8], out: &mut [u8]) -> usize
    requires { reply_room * length input.now ≤ length out.old }
    ensures value { result ≡ length (output shoushi input.now) }
    ensures writes { out.new ≡ over (output shoushi input.now) out.old }
{
    let mut left = input;
    let mut used: usize = 0;
    // The paper hands the rest of the input on as it stands, a line at a time.
    while !left.is_empty() {
        let n = line_len(left);
        used += put_reply_line(&left[..n], &mut out[used..]);
        left = rest(left, n);
    }
    used
}

// The place after the last line end.
#[tactic(auto, using(crate::proofs::Kept::none_whole, crate::proofs::Kept::whole_to))]
fn whole_lines(block: &[u8]) -> usize
    ensures value { result ≡ whole_length block.now }
    ensures within { result ≤ length block.now }
{
    match last_line_end(block) {
        Some(at) => at + 1,
        None => 0,
    }
}

fn last_line_end(block: &[u8]) -> Option<usize>
    ensures { MatchOption result (NoEnd block.now) (LastEnd block.now) }
{
    block.iter().rposition(|b| *b == LINE_END)
}
