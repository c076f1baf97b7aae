// Layer 4, the program: "reads records from standard input and writes the replies". A record is answered when all of it
// is there. So the session itself answers 13 to a body over 512 bytes, and a last record that is incomplete gets no
// reply.
#![tactic(auto)]

ghost use Rattle.std.specs.Prelude.{◌≤◌, length};
ghost use Rattle.paper.specs.State.{Session, fresh};
ghost use Rattle.filter.specs.Turns.{standing, Serves};
ghost use Rattle.replay.specs.Machine.{sessions, session_of};

use filter::{After, Machine};
use session::FRONT;
use std::io;
use std::io::{Read, Write};
use store::Store;

// A record has at most 65,539 bytes, so there is always room to read on behind one that is not whole yet.
const INPUT: usize = 131072;

// Room for the replies of one write.
const OUTPUT: usize = 65536;

// The memory of a session: what it keeps between records.
#[derive(Drop)]
struct Memory {
    front: [u32; FRONT],
    sets: [u32; Store::CAPACITY],
    store: [u32; Store::WORDS],
}

// A session answers records, each with its reply.
impl Machine for Memory {
    const ROOM: usize = Store::REPLY;

    ghost ROOM = { 512 };

    ghost State = { Session };

    ghost moves = { sessions };

    ghost state = { session_of };

    fn answer(&mut self, record: &[u8], replies: &mut [u8], made: usize) -> usize {
        let Memory { front, sets, store } = self;
        session::step(front, sets, store, record, &mut replies[made..]).len
    }
}

// Turn after turn from a fresh session.
fn run<R: Read, W: Write>(
    machine: &mut Memory,
    source: &mut R,
    sink: &mut W,
    input: &mut [u8],
    output: &mut [u8],
) -> After
    requires { (65539 ≤ length input.old) × (512 ≤ length output.old) }
    ensures { Serves sessions fresh (standing (session_of machine.new) result input.new output.new) }
{
    session::fresh(&mut machine.front, &mut machine.sets, &mut machine.store);
    filter::run(machine, source, sink, input, output)
}

// The session and both buffers are here, of one size for any length of input.
fn main(rt: HostRuntime) -> io::Result<()> {
    let mut source = rt.stdin();
    let mut sink = rt.stdout();
    let mut memory = Memory {
        front: [0; FRONT],
        sets: [0; Store::CAPACITY],
        store: [0; Store::WORDS],
    };
    let mut input = [0u8; INPUT];
    let mut output = [0u8; OUTPUT];
    let t = run(&mut memory, &mut source, &mut sink, &mut input, &mut output);
    if let Some(what) = t.next.failure() {
        eprintln!(rt; "replay: {what}")?;
    }
    Ok(())
}
