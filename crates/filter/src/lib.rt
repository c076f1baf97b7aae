// Programs that answer each whole message of standard input on standard output: what a turn of such a program gives,
// and, in specs and proofs, the laws of its turns and of its run. The machine that answers is the program's own.
#![tactic(auto)]

ghost use Rattle.std.specs.Prelude.{◌≡◌, ℕ, true, ◌||◌, is_some, ◌+◌, ◌-◌, ◌≤◌, length, drop};
ghost use Rattle.format.specs.Cut.{size_of};
ghost use Rattle.stream.specs.Turns.{read_as};
ghost use Rattle.filter.specs.Next.{is_unread, is_unwritten};
ghost use Rattle.filter.specs.Machine.{Machine as Moves};
ghost use Rattle.filter.specs.Answers.{Added, Answers};
ghost use Rattle.filter.specs.Turns.{fed_by, gone, standing, Went, Turned, Serves};

use std::io;
use std::io::{Read as Source, Write};

// A machine that answers messages one after the other, in the memory that a program keeps for it.
pub trait Machine {
    // The room that one answer needs.
    const ROOM: usize;

    ghost ROOM: { ℕ };

    // The states that it can be in, what it answers in each, and the one that it is in.
    ghost State: { Type 0 };

    ghost moves: { Moves State };

    ghost state: { Self → State };

    // Answers one message behind the `made` bytes of the earlier answers: how many bytes the answer has.
    fn answer(&mut self, message: &[u8], output: &mut [u8], made: usize) -> usize
        requires { (4 ≤ length message.now) × (made + ROOM ≤ length output.old) }
        ensures { Added moves (state self.old) message.now made output.old result (state self.new)
            output.new };
}

// What comes behind a turn.
#[derive(Clone, Copy, PartialEq, Eq)]
pub enum Next {
    // Another turn.
    More,
    // Nothing, since the input has ended.
    End,
    // Nothing, since standard input can't be read.
    Unread,
    // Nothing, since standard output can't be written.
    Unwritten,
}

impl Next {
    // What failed, if something did.
    pub fn failure(self) -> Option<&'static str>
        ensures { is_some result ≡ (is_unread self || is_unwritten self) }
    {
        match self {
            Next::Unread => Some("standard input can't be read"),
            Next::Unwritten => Some("standard output can't be written"),
            Next::More | Next::End => None,
        }
    }
}

// How many bytes wait at the start of the input buffer, how many bytes of answers were handed over to be written, and
// what comes next.
#[derive(Clone, Copy)]
pub struct After {
    pub held: usize,
    pub made: usize,
    pub next: Next,
}

// How many bytes of messages were answered, and how many their answers have.
#[derive(Clone, Copy)]
pub struct Answered {
    pub taken: usize,
    pub made: usize,
}

// What a turn gives that only read: the run goes on where something was read.
fn fed(held: usize, read: io::Result<usize>) -> After
    ensures { result ≡ fed_by held (read_as held read) }
{
    let next = match read {
        Ok(now) if held < now => Next::More,
        Ok(_) => Next::End,
        Err(_) => Next::Unread,
    };
    After {
        held: read.unwrap_or(held),
        made: 0,
        next,
    }
}

// What a turn does behind the messages that were answered: hands their answers over to be written and cuts them off the
// input; where none was answered, reads on.
pub fn go_on<R: Source, W: Write>(
    source: &mut R,
    sink: &mut W,
    a: Answered,
    held: usize,
    input: &mut [u8],
    output: &[u8],
) -> After
    ensures { Went a held input.old result input.new }
{
    if a.taken == 0 {
        return fed(held, stream::read_behind(source, held, input));
    }
    let wrote = stream::write_front(sink, output, a.made).wrote;
    stream::shift(input, a.taken, held);
    let next = if wrote { Next::More } else { Next::Unwritten };
    After {
        held: held.saturating_sub(a.taken),
        made: a.made,
        next,
    }
}

// Before the first turn: nothing waits, and the run goes on.
pub fn start() -> After
    ensures { result ≡ gone 0 0 true }
{
    After {
        held: 0,
        made: 0,
        next: Next::More,
    }
}

// Answers the whole messages at the start of these bytes, one after the other, while there is room for an answer.
pub fn answer_all<M: Machine>(machine: &mut M, bytes: &[u8], output: &mut [u8]) -> Answered
    ensures within { (result.taken ≤ length bytes.now) × (result.made ≤ length output.new) }
    ensures answers { Answers M.moves (M.state machine.old) bytes.now (M.state machine.new)
        result.taken result.made output.old output.new }
    ensures all { result.made + M.ROOM ≤ length output.new → size_of (drop result.taken bytes.now) ≡ 0 }
{
    let mut taken = 0;
    let mut made = 0;
    while M::ROOM <= output.len() - made {
        let Some(n) = format::whole(&bytes[taken..]) else {
            break;
        };
        let end = taken + n;
        made += machine.answer(&bytes[taken..end], output, made);
        taken = end;
    }
    Answered { taken, made }
}

// Answers what is whole and writes the answers; reads on only where nothing is whole, so no answer waits for input.
pub fn turn<M: Machine, R: Source, W: Write>(
    machine: &mut M,
    source: &mut R,
    sink: &mut W,
    held: usize,
    input: &mut [u8],
    output: &mut [u8],
) -> After
    requires held_in_bounds { held ≤ length input.old }
    requires in_bounds { (65539 ≤ length input.old) × (M.ROOM ≤ length output.old) }
    ensures held_in_bounds_2 { result.held ≤ length input.new }
    ensures turned { Turned M.moves (M.state machine.old) held input.old output.old
        (M.state machine.new) result input.new output.new }
{
    let a = answer_all(machine, &input[..held], output);
    go_on(source, sink, a, held, input, output)
}

// Turn after turn from the state that the machine is in. Nothing says that the input ends, so the turns are counted.
pub fn run<M: Machine, R: Source, W: Write>(
    machine: &mut M,
    source: &mut R,
    sink: &mut W,
    input: &mut [u8],
    output: &mut [u8],
) -> After
    requires { (65539 ≤ length input.old) × (M.ROOM ≤ length output.old) }
    ensures { Serves M.moves (M.state machine.old)
        (standing (M.state machine.new) result input.new output.new) }
{
    let mut t = start();
    for _ in 0..u64::MAX {
        t = turn(machine, source, sink, t.held, input, output);
        if t.next != Next::More {
            break;
        }
    }
    t
}
