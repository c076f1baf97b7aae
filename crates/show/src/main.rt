// Replies as text: "writes the replies" of the program `replay` on standard input, one readable line for each on
// standard output. A line is written when all of its reply is there. A last reply that is incomplete gets a line that
// says so.
#![tactic(auto)]

mod lists;
mod replies;

ghost use Rattle.std.specs.Prelude.{◌≡◌, ◌+◌, ◌-◌, ◌≤◌, ◌<◌, length, drop};
ghost use Rattle.format.specs.Cut.{size_of};
ghost use Rattle.show.specs.Stream.{Added, Lines};
ghost use Rattle.stream.specs.Turns.{read_as};
ghost use Rattle.show.specs.Turns.{Last, FedBy, Turned, standing, Shows};

use filter::Next;
use paper::Reading;
use std::io;
use std::io::{Read as Source, Write};

// A reply has at most 65,539 bytes, so there is always room to read on behind one that is not whole yet.
const INPUT: usize = 131072;

// Room for the lines of one write.
const OUTPUT: usize = 65536;

// No line is longer: five sets, and three lists of a tail, of 255 each.
const LINE: usize = 28457;

// The number of the next reply, how many bytes were taken, how many their lines have, and what the reader carries on.
#[derive(Clone, Copy)]
struct Lined {
    next: u64,
    taken: usize,
    made: usize,
    reading: Reading,
}

// The number of the next reply, how many bytes wait at the start of the input buffer, how many bytes of lines were
// handed over to be written, what comes behind the turn, and what the reader of the replies carries to the next one.
#[derive(Clone, Copy)]
struct After {
    number: u64,
    held: usize,
    made: usize,
    next: Next,
    reading: Reading,
}

// The line of one reply, behind the `made` bytes of the earlier ones.
fn line_at(st: Reading, number: u64, reply: &[u8], out: &mut [u8], made: usize) -> usize
    requires { made + 28457 ≤ length out.old }
    ensures { Added st number reply.now made out.old result out.new }
{
    replies::line(st, number, reply, &mut out[made..])
}

// The lines of the whole replies at the start of these bytes, one after the other, while there is room for a line. The
// number stays at the largest of 64 bits, which no stream reaches.
fn lines(st: Reading, number: u64, bytes: &[u8], out: &mut [u8]) -> Lined
    ensures within { (result.taken ≤ length bytes.now) × (result.made ≤ length out.new) }
    ensures lines { Lines st number bytes.now result.reading result.next result.taken result.made
        out.old out.new }
    ensures all { result.made + 28457 ≤ length out.new
        → size_of (drop result.taken bytes.now) ≡ 0 }
{
    let mut reading = st;
    let mut next = number;
    let mut taken = 0;
    let mut made = 0;
    // Kept: each step is as long as a line, and there may be no whole reply, so no range or iterator gives them.
    while made + LINE <= out.len() {
        let Some(n) = format::whole(&bytes[taken..]) else {
            break;
        };
        let e = taken + n;
        made += line_at(reading, next, &bytes[taken..e], out, made);
        reading = format::further(reading, &bytes[taken..e]);
        next = next.saturating_add(1);
        taken = e;
    }
    Lined {
        next,
        taken,
        made,
        reading,
    }
}

// The end of the input: the last line, for the bytes that wait and are no whole reply, or none where nothing waits.
fn last<W: Write>(sink: &mut W, t: After, output: &mut [u8]) -> After
    requires { 28457 ≤ length output.old }
    ensures { Last t.reading t.number t.held output.old result output.new }
{
    if t.held == 0 {
        return After {
            made: 0,
            next: Next::End,
            ..t
        };
    }
    let made = replies::rest(t.number, t.held, output);
    let next = match sink.write_all(&output[..made]) {
        Ok(()) => Next::End,
        Err(_) => Next::Unwritten,
    };
    After { made, next, ..t }
}

// What a turn gives that only read: the run goes on where something was read, and else ends, with the last line unless
// the read failed.
fn fed<W: Write>(sink: &mut W, t: After, read: io::Result<usize>, output: &mut [u8]) -> After
    requires { 28457 ≤ length output.old }
    ensures { FedBy t.reading t.number t.held (read_as t.held read) output.old result output.new }
{
    match read {
        Ok(held) if t.held < held => After {
            held,
            made: 0,
            next: Next::More,
            ..t
        },
        Ok(held) => last(sink, After { held, ..t }, output),
        Err(_) => After {
            made: 0,
            next: Next::Unread,
            ..t
        },
    }
}

// Writes the lines of what is whole; reads on only where nothing is whole, so that no line waits for input.
fn turn<R: Source, W: Write>(
    source: &mut R,
    sink: &mut W,
    t: After,
    input: &mut [u8],
    output: &mut [u8],
) -> After
    requires held_in_bounds { t.held ≤ length input.old }
    requires in_bounds { (65539 ≤ length input.old) × (28457 ≤ length output.old) }
    ensures held_in_bounds_2 { result.held ≤ length input.new }
    ensures turned { Turned t.reading t.number t.held input.old output.old result input.new
        output.new }
{
    let l = lines(t.reading, t.number, &input[..t.held], output);
    if l.taken == 0 {
        let read = stream::read_behind(source, t.held, input);
        return fed(sink, t, read, output);
    }
    let wrote = stream::write_front(sink, output, l.made).wrote;
    stream::shift(input, l.taken, t.held);
    After {
        number: l.next,
        held: t.held - l.taken,
        made: l.made,
        next: if wrote { Next::More } else { Next::Unwritten },
        reading: l.reading,
    }
}

// Turn after turn from the first reply. Nothing says that the input ends, so the turns are counted.
fn run<R: Source, W: Write>(
    source: &mut R,
    sink: &mut W,
    input: &mut [u8],
    output: &mut [u8],
) -> After
    requires { (65539 ≤ length input.old) × (28457 ≤ length output.old) }
    ensures { Shows (standing result input.new output.new) }
{
    let mut t = After {
        number: 1,
        held: 0,
        made: 0,
        next: Next::More,
        reading: format::opening(),
    };
    for _ in 0..u64::MAX {
        t = turn(source, sink, t, input, output);
        if t.next != Next::More {
            break;
        }
    }
    t
}

// Both buffers are here, of one size for any length of input. What failed is named on standard error.
fn main(rt: HostRuntime) -> io::Result<()> {
    let mut source = rt.stdin();
    let mut sink = rt.stdout();
    let mut input = [0u8; INPUT];
    let mut output = [0u8; OUTPUT];
    let t = run(&mut source, &mut sink, &mut input, &mut output);
    if let Some(what) = t.next.failure() {
        eprintln!(rt; "show: {what}")?;
    }
    Ok(())
}
