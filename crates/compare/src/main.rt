// `compare FIRST SECOND`: the differences between two files of replies (document 02, Item 5), one line for each reply
// number at which they differ. It reads both files in blocks with constant memory.
#![tactic(auto)]

mod pair;

ghost use Rattle.std.specs.Prelude.{◌≡◌, false, ◌+◌, ◌≤◌, ◌<◌, length, drop};
ghost use Rattle.format.specs.Cut.{size_of};
ghost use Rattle.compare.specs.Pairs.{goes, Paired};
ghost use Rattle.compare.specs.Turns.{waiting, behind_read, Went, Turned, standing, Compares};

use pair::Waiting;
use std::io;
use std::io::{Read, Write};
use std::rt::Env;
use stream::files;
use stream::files::{Feed, NAME, Source};

// A reply has at most 65,539 bytes, so there is always room to read on behind one that is not whole yet.
const INPUT: usize = 131072;

// Room for the lines of one write.
const OUTPUT: usize = 65536;

// No line is longer: two numbers of at most twenty digits, and the words between and behind them.
const LINE: usize = 49;

// The number of the next pair, how many bytes were taken of each file, and how many the lines have.
#[derive(Clone, Copy)]
struct Compared {
    number: u64,
    first: usize,
    second: usize,
    made: usize,
}

// A file that is compared: what it is read from, and the buffer at the start of which its bytes wait.
#[derive(Drop)]
struct Input<R> {
    source: Source<R>,
    bytes: [u8; INPUT],
}

// What comes behind a turn.
#[derive(Clone, Copy, PartialEq, Eq)]
enum Next {
    // Another turn.
    More,
    // Nothing, since both files have ended and no reply is left.
    End,
    // Nothing, since one of the files can't be read.
    Unread,
    // Nothing, since standard output can't be written.
    Unwritten,
    // Nothing, since the replies that are left have no number.
    Spent,
}

// The number of the next pair, the two files, how many bytes of lines were handed over to be written, and what comes
// next.
#[derive(Clone, Copy)]
struct State {
    number: u64,
    first: Feed,
    second: Feed,
    made: usize,
    next: Next,
}

// The lines of the pairs that wait, one after the other, while there is room for a line. A file gives the reply at its
// place; where it has ended it gives what is left as its last, and then nothing.
fn lines(number: u64, first: Waiting, second: Waiting, out: &mut [u8]) -> Compared
    ensures within { (result.first ≤ length first.entry.bytes.now) × (result.second ≤ length second.entry.bytes.now)
        × (result.made ≤ length out.new) }
    ensures paired { Paired number first.entry.bytes.now first.entry.ended second.entry.bytes.now second.entry.ended
        out.old result out.new }
    ensures all { result.made + 49 ≤ length out.new → goes result.number first.entry.ended
        (drop result.first first.entry.bytes.now) second.entry.ended (drop result.second second.entry.bytes.now) ≡ false }
{
    let mut c = Compared {
        number,
        first: 0,
        second: 0,
        made: 0,
    };
    // Kept: each step is as long as a line, and there may be no pair, so no range or iterator gives them.
    while c.made + LINE <= out.len() {
        let a = first.behind(c.first);
        let b = second.behind(c.second);
        let Some((n, m)) = pair::next_pair(c.number, a, b) else {
            return c;
        };
        let made = pair::put_line(out, c.made, c.number, &a.bytes[..n], &b.bytes[..m]);
        c = Compared {
            number: c.number + 1,
            first: c.first + n,
            second: c.second + m,
            made,
        };
    }
    c
}

// What waits of a file in its buffer, which has room behind a reply that is not whole.
fn waiting<'a>(f: Feed, bytes: &'a [u8]) -> Waiting<'a>
    requires { f.held ≤ length bytes.now }
    ensures waits { (result.bytes.now ≡ waiting f bytes.now) × (result.ended ≡ f.ended) }
    ensures room { 65539 ≤ length bytes.now → size_of (waiting f bytes.now) ≡ 0 → f.held < length bytes.now }
{
    Waiting {
        bytes: &bytes[..f.held],
        ended: f.ended,
    }
}

// What comes behind a read of a file.
fn behind_read(f: Feed) -> Next
    ensures { result ≡ behind_read f }
{
    if f.failed { Next::Unread } else { Next::More }
}

// Where no pair is compared: reads the file on that is waited for, or ends the run.
fn go_on<R: Read>(s: State, first: &mut Input<R>, second: &mut Input<R>) -> State
    requires held_in_bounds { (s.first.held ≤ length first.old.bytes) × (s.second.held ≤ length second.old.bytes) }
    requires sources { (first.old.source.fd ≡ s.first.fd) × (second.old.source.fd ≡ s.second.fd) }
    ensures went { Went s first.old.bytes second.old.bytes result first.new.bytes second.new.bytes }
    ensures same { (first.new.source.fd ≡ first.old.source.fd) × (second.new.source.fd ≡ second.old.source.fd) }
{
    let a = s.first;
    let b = s.second;
    let Some(n) = waiting(a, &first.bytes).reply_size() else {
        let f = files::read_on(&mut first.source, a, &mut first.bytes);
        return State {
            first: f,
            made: 0,
            next: behind_read(f),
            ..s
        };
    };
    let Some(m) = waiting(b, &second.bytes).reply_size() else {
        let f = files::read_on(&mut second.source, b, &mut second.bytes);
        return State {
            second: f,
            made: 0,
            next: behind_read(f),
            ..s
        };
    };
    let left = (n > 0) | (m > 0);
    State {
        made: 0,
        next: if left { Next::Spent } else { Next::End },
        ..s
    }
}

// Writes the lines of the pairs that wait, and makes room for more; where none waits, reads on.
fn turn<R: Read, W: Write>(
    s: State,
    first: &mut Input<R>,
    second: &mut Input<R>,
    sink: &mut W,
    output: &mut [u8],
) -> State
    requires held_in_bounds { (s.first.held ≤ length first.old.bytes) × (s.second.held ≤ length second.old.bytes) }
    requires in_bounds { 49 ≤ length output.old }
    requires sources { (first.old.source.fd ≡ s.first.fd) × (second.old.source.fd ≡ s.second.fd) }
    ensures turned { Turned s first.old.bytes second.old.bytes output.old result first.new.bytes
        second.new.bytes output.new }
    ensures same { (first.new.source.fd ≡ first.old.source.fd) × (second.new.source.fd ≡ second.old.source.fd) }
{
    let a = s.first;
    let b = s.second;
    let l = lines(
        s.number,
        waiting(a, &first.bytes),
        waiting(b, &second.bytes),
        output,
    );
    if (l.first == 0) & (l.second == 0) {
        return go_on(s, first, second);
    }
    let wrote = stream::write_front(sink, output, l.made).wrote;
    stream::shift(&mut first.bytes, l.first, a.held);
    stream::shift(&mut second.bytes, l.second, b.held);
    State {
        number: l.number,
        first: files::without(a, l.first),
        second: files::without(b, l.second),
        made: l.made,
        next: if wrote { Next::More } else { Next::Unwritten },
    }
}

// Turn after turn from number 0. Nothing says that the files end, so the turns are counted.
fn run<R: Read, W: Write>(
    first_fd: i32,
    second_fd: i32,
    first: &mut Input<R>,
    second: &mut Input<R>,
    sink: &mut W,
    out: &mut [u8],
) -> State
    requires in_bounds { 49 ≤ length out.old }
    requires sources { (first.old.source.fd ≡ first_fd) × (second.old.source.fd ≡ second_fd) }
    ensures { Compares first_fd second_fd (standing result first.new.bytes second.new.bytes
        out.new) }
{
    let mut s = State {
        number: 0,
        first: files::unread(first_fd),
        second: files::unread(second_fd),
        made: 0,
        next: Next::More,
    };
    for _ in 0..u64::MAX {
        s = turn(s, first, second, sink, out);
        if s.next != Next::More {
            break;
        }
    }
    s
}

// Says that the file which the i-th argument names can't be read.
fn unreadable<R: Env + Alloc, W: Write, F>(
    rt: &R,
    err: &mut W,
    i: usize,
    input: &Input<F>,
) -> io::Result<()> {
    let mut name = [0u8; NAME];
    let n = files::name(rt, i, &mut name);
    files::unreadable(rt, err, &input.source, &name[..n], b"compare")
}

// What failed is named on standard error, the files by their names.
fn finish<R: Env + Alloc, W: Write, F>(
    rt: &R,
    err: &mut W,
    s: State,
    first: &Input<F>,
    second: &Input<F>,
) -> io::Result<()> {
    match s.next {
        Next::End => Ok(()),
        Next::Unread if s.first.failed => unreadable(rt, err, 1, first),
        Next::Unread => unreadable(rt, err, 2, second),
        Next::Unwritten => err.write_all(b"compare: standard output can't be written\n"),
        Next::Spent | Next::More => {
            err.write_all(b"compare: more replies than there are numbers of 64 bits\n")
        }
    }
}

// The buffers are here, of one size for any length of the files, which are told apart by their places among the
// arguments.
fn main(rt: HostRuntime) -> io::Result<()> {
    if !files::are_given(&rt, 2) {
        return eprintln!(rt; "usage: compare FIRST SECOND");
    }
    let mut err = rt.stderr();
    let a = files::open(&rt, &mut err, 1, b"compare")?;
    let b = files::open(&rt, &mut err, 2, b"compare")?;
    let (Some(a), Some(b)) = (a, b) else {
        return Ok(());
    };
    let mut first = Input {
        source: a,
        bytes: [0; INPUT],
    };
    let mut second = Input {
        source: b,
        bytes: [0; INPUT],
    };
    let mut sink = rt.stdout();
    let mut output = [0u8; OUTPUT];
    let s = run(1, 2, &mut first, &mut second, &mut sink, &mut output);
    finish(&rt, &mut err, s, &first, &second)
}
