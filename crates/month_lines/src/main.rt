// Reads days from standard input, a line each, and writes the month of each to standard output.
#![tactic(auto)]

ghost use Rattle.std.specs.Prelude.{◌≡◌, ℕ, ◌*◌, ◌-◌, ◌≤◌, List, [], length, take};
ghost use Rattle.rows.specs.Row.{over};
ghost use Rattle.std.specs.Io.KnownBytes.{ReadConsumes};
ghost use Rattle.reads.specs.Given.{Within, block_room};
ghost use Rattle.lines.specs.Line.{reply_room};
ghost use Rattle.lines.specs.Block.{enough, Unfinished};
ghost use Rattle.month_lines.specs.Input.{read_of, written_for, kept_for, replies_in, turn_after, Left};

use lines::REPLY_ROOM;
use lines::blocks::Block;
use reads::{BLOCK, ReadFailed};
use std::io::Read as ReadBytes;
use std::marker::Model;

// What was read: no more, so that the last line was answered in so many bytes; or a block, which was answered.
#[derive(Clone, Copy)]
enum Read {
    Last(usize),
    Part(Block),
}

// Room for the replies to a full buffer.
const ROOM: usize = REPLY_ROOM * BLOCK;

// Reads once: what is read are the input's next bytes, and none only where it has ended. `desk` reads so too. `reads::read_once` is for other callers:
// here `given` says what the read answered, by a contract that determines it.
fn read_block<R: ReadBytes>(input: &mut R, block: &mut [u8]) -> Result<usize, ReadFailed>
    ensures within { Within result (length block.old) }
    ensures consumes { ReadConsumes (R.remaining input.old) (R.remaining input.new) result block.new }
{
    let answered = match input.read(block) {
        Ok(n) => n as isize,
        Err(_) => -1,
    };
    reads::given(answered, block)
}

// Reads once, after the kept bytes, which stay. This and the answer take the fields of `Begun`, which fit together again when the turn ends.
fn read_more(input: &mut impl ReadBytes, buf: &mut [u8], kept: usize) -> Result<usize, ReadFailed>
    requires { (kept ≤ length buf.old) × (block_room ≡ length buf.old) }
    ensures within { Within result (length buf.old - kept) }
    ensures buf_unchanged { take kept buf.new ≡ take kept buf.old }
{
    read_block(input, &mut buf[kept..])
}

// Writes out; whether all of it went through. Where it did not, standard error says so, and the program ends.
// `desk` has it too: shared it would be public, and no contract can say what is written.
fn write_out(rt: &(impl Print + Eprint), out: &[u8]) -> bool {
    let ok = rt.write_all(out).is_ok();
    if !ok {
        let _ = rt.eprintln("month_lines: the output is cut short");
    }
    ok
}

// The first `have` bytes answered, of which so many were kept. Where no more were read, they are the last line.
#[tactic(auto, unfolding(crate::specs::Input::read_of, crate::specs::Input::written_for, crate::specs::Input::kept_for))]
fn answer_read(buf: &mut [u8], kept: usize, have: usize, out: &mut [u8]) -> Read
    requires { (kept ≤ have) × (have ≤ length buf.old) × (reply_room * length buf.old ≤ length out.old) }
    ensures value { result ≡ read_of kept (take have buf.old) }
    ensures writes { out.new ≡ over (written_for kept (take have buf.old)) out.old }
    ensures buf_after { buf.new ≡ over (kept_for kept (take have buf.old)) buf.old }
{
    if have == kept {
        return Read::Last(lines::blocks::answer_whole_lines(&buf[..have], out));
    }
    Read::Part(lines::blocks::answer_block(buf, have, out))
}

// How many bytes the replies have.
fn replies_in(read: Read) -> usize
    ensures { result ≡ replies_in read }
{
    match read {
        Read::Last(n) => n,
        Read::Part(block) => block.written,
    }
}

// How a turn ends, where the replies went out or did not: with so many bytes of an unfinished line at the buffer's start, or all is over.
fn turn_after(read: Read, went: bool) -> Option<usize>
    ensures { result ≡ turn_after read went }
{
    match read {
        Read::Part(block) if went => Some(block.kept),
        _ => None,
    }
}

// An unfinished line, or enough of it: its first bytes stand at the buffer's start.
#[derive(Drop)]
struct Begun {
    buf: [u8; BLOCK],
    kept: usize,
}

impl Model for Begun {
    ghost Value = { List ℕ };

    ghost view = { λ b. take b.kept b.buf };

    ghost invariant = { λ b. (b.kept ≤ enough) × Unfinished (take b.kept b.buf) };
}

impl Begun {
    #[tactic(auto, using(crate::proofs::ReadLaws::none_unfinished))]
    fn new() -> Self
        ensures { result ≡ [] }
    {
        Begun {
            buf: [0; BLOCK],
            kept: 0,
        }
    }

    // One turn: reads, and writes the replies to what was read; whether there is another. A failed write ends it, and a failed read, which
    // is told; a line that was begun has no reply then: its end was not seen.
    #[tactic(auto, using(crate::proofs::ReadLaws::replies_within))]
    fn turn(
        &mut self,
        rt: &(impl Print + Eprint),
        input: &mut impl ReadBytes,
        out: &mut [u8; ROOM],
    ) -> bool
        ensures { Left result self.old self.new }
    {
        let kept = self.kept;
        let Ok(more) = read_more(input, &mut self.buf, kept) else {
            let _ = rt.eprintln("month_lines: the input could not be read to its end");
            return false;
        };
        let read = answer_read(&mut self.buf, kept, kept + more, out);
        let n = replies_in(read);
        let went = write_out(rt, &out[..n]);
        let after = turn_after(read, went);
        self.kept = after.unwrap_or(0);
        after.is_some()
    }
}

// Nothing says that the input ends, so the turns have a number that no run uses up.
fn main(rt: HostRuntime) {
    let mut input = rt.stdin();
    let mut begun = Begun::new();
    let mut out = [0; ROOM];
    for _ in 0..u64::MAX {
        if !begun.turn(&rt, &mut input, &mut out) {
            return;
        }
    }
}
