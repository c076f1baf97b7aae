// `ledger RECORDS REPLIES`: checks from a file of records and a file of replies alone that no frame was read after it
// was given back (demand 3 of document 01). It trusts nothing of the replies, reads both files in blocks with constant
// memory, and says `kept` or the first reply that breaks a part.
#![tactic(auto)]

mod text;

ghost use Rattle.std.specs.Prelude.{◌≡◌, ◌≤◌, length};
ghost use Rattle.watch.specs.Parts.{part_at};
ghost use Rattle.ledger.specs.declared.Move.TheVariants.{Stop};
ghost use Rattle.ledger.specs.Moves.{alone, move_of};
ghost use Rattle.ledger.specs.Turns.{state_of, wants, Went, Turned, standing, Judges};
ghost use Rattle.ledger.specs.Verdict.{last_rest};

use paper::Blamed;
use std::io;
use std::io::{Read, Write};
use stream::files;
use stream::files::{Feed, NAME, Source};
use watch::{Book, Broken, Part};

// A record or a reply has at most 65,539 bytes, so there is always room to read on behind one that is not whole yet.
const INPUT: usize = 131072;

// The book, how many exchanges broke nothing, the two files, the part that the next exchange breaks, if it does, with the
// picture and the surface that it does so with, how many bytes are told of a record or reply that is not whole, and
// whether the run goes on.
#[derive(Clone, Copy)]
struct State {
    book: Book,
    number: u64,
    records: Feed,
    replies: Feed,
    broken: Option<Broken>,
    rest: usize,
    more: bool,
}

// What is done where no whole record or no whole reply is left: one of the files is read on, or the run ends with a
// part, or with none.
#[derive(Clone, Copy)]
enum Move {
    Records,
    Replies,
    Stop(Option<Broken>),
}

// The run ends with this part, and nothing is named.
fn ends_with(part: Part) -> Move
    ensures { result ≡ Stop (alone part) }
{
    Move::Stop(Some(Broken {
        part,
        blamed: Blamed::Nothing,
    }))
}

// A reply without its record; a record without its reply; a rest of the replies that is no whole reply. A rest of the
// records that is no whole record has no reply. `said`, `answered`: a whole record, a whole reply is left.
fn next_move(said: bool, all_said: bool, answered: bool, all_answered: bool, rest: bool) -> Move
    ensures { result ≡ move_of said all_said answered all_answered rest }
{
    if !said & !all_said {
        return Move::Records;
    }
    if !said & answered {
        return ends_with(Part::ReplyAlone);
    }
    if !all_answered {
        return Move::Replies;
    }
    if rest {
        return ends_with(Part::NotWhole);
    }
    if said {
        return ends_with(Part::RecordAlone);
    }
    Move::Stop(None)
}

// The bytes that a run which ends with this part tells of: those of a last record, which has no reply, or those of a
// last reply.
fn last_rest(broken: Option<Broken>, records: usize, replies: usize) -> usize
    ensures { result ≡ last_rest (part_at broken) records replies }
{
    match broken {
        None => records,
        Some(x) => match x.part {
            Part::NotWhole => replies,
            _ => 0,
        },
    }
}

// The same book and number, with these files, this part and this rest.
fn fed(
    s: State,
    records: Feed,
    replies: Feed,
    broken: Option<Broken>,
    rest: usize,
    more: bool,
) -> State
    ensures { result ≡ state_of s records replies broken rest more }
{
    State {
        records,
        replies,
        broken,
        rest,
        more,
        ..s
    }
}

// Reads one of the files on, or ends the run.
fn go_on<R: Read>(
    s: State,
    m: Move,
    records_source: &mut Source<R>,
    replies_source: &mut Source<R>,
    records: &mut [u8],
    replies: &mut [u8],
) -> State
    requires { (records_source.old.fd ≡ s.records.fd) × (replies_source.old.fd ≡ s.replies.fd) }
    ensures went { Went s m records.old replies.old result records.new
        replies.new }
    ensures same { (records_source.new.fd ≡ records_source.old.fd) × (replies_source.new.fd ≡ replies_source.old.fd) }
{
    let a = s.records;
    let b = s.replies;
    match m {
        Move::Records => {
            let f = files::read_on(records_source, a, records);
            fed(s, f, b, None, 0, !f.failed)
        }
        Move::Replies => {
            let f = files::read_on(replies_source, b, replies);
            fed(s, a, f, None, 0, !f.failed)
        }
        Move::Stop(broken) => {
            let rest = last_rest(broken, a.held, b.held);
            fed(s, a, b, broken, rest, false)
        }
    }
}

// What to do where no exchange is whole.
fn starve<R: Read>(
    s: State,
    records_source: &mut Source<R>,
    replies_source: &mut Source<R>,
    records: &mut [u8],
    replies: &mut [u8],
) -> State
    requires held_in_bounds { (s.records.held ≤ length records.old) × (s.replies.held ≤ length replies.old) }
    requires sources { (records_source.old.fd ≡ s.records.fd) × (replies_source.old.fd ≡ s.replies.fd) }
    ensures went { Went s (wants s records.old replies.old) records.old
        replies.old result records.new replies.new }
    ensures same { (records_source.new.fd ≡ records_source.old.fd) × (replies_source.new.fd ≡ replies_source.old.fd) }
{
    let a = s.records;
    let b = s.replies;
    let n = a.held;
    let k = b.held;
    let said = format::whole(&records[..n]).is_some();
    let answered = format::whole(&replies[..k]).is_some();
    let m = next_move(said, a.ended, answered, b.ended, k > 0);
    go_on(s, m, records_source, replies_source, records, replies)
}

// Hears the exchanges that are whole, and makes room for more; where none is whole, reads on.
fn turn<R: Read>(
    s: State,
    records_source: &mut Source<R>,
    replies_source: &mut Source<R>,
    records: &mut [u8],
    replies: &mut [u8],
) -> State
    requires held_in_bounds { (s.records.held ≤ length records.old) × (s.replies.held ≤ length replies.old) }
    requires sources { (records_source.old.fd ≡ s.records.fd) × (replies_source.old.fd ≡ s.replies.fd) }
    ensures turned { Turned s records.old replies.old result records.new
        replies.new }
    ensures same { (records_source.new.fd ≡ records_source.old.fd) × (replies_source.new.fd ≡ replies_source.old.fd) }
{
    let a = s.records;
    let b = s.replies;
    let n = a.held;
    let k = b.held;
    let held = s.book;
    let p = watch::hear_all(held, &records[..n], &replies[..k]);
    let taken = p.taken;
    let answered = p.answered;
    if taken == 0 {
        return starve(s, records_source, replies_source, records, replies);
    }
    stream::shift(records, taken, n);
    stream::shift(replies, answered, k);
    let x = files::without(a, taken);
    let y = files::without(b, answered);
    State {
        book: p.book,
        number: watch::plus(s.number, p.pairs),
        records: x,
        replies: y,
        broken: p.broken,
        rest: 0,
        more: p.broken.is_none(),
    }
}

// Turn after turn from a new book. Nothing says that the files end, so the turns are counted.
fn run<R: Read>(
    records_fd: i32,
    replies_fd: i32,
    records_source: &mut Source<R>,
    replies_source: &mut Source<R>,
    records: &mut [u8],
    replies: &mut [u8],
) -> State
    requires { (records_source.old.fd ≡ records_fd) × (replies_source.old.fd ≡ replies_fd) }
    ensures { Judges records_fd replies_fd (standing result records.new replies.new) }
{
    let mut s = State {
        book: Book::new(),
        number: 0,
        records: files::unread(records_fd),
        replies: files::unread(replies_fd),
        broken: None,
        rest: 0,
        more: true,
    };
    for _ in 0..u64::MAX {
        s = turn(s, records_source, replies_source, records, replies);
        if !s.more {
            break;
        }
    }
    s
}

// The buffers and the names are here, of one size for any length of the files, which are told apart by their places
// among the arguments.
fn main(rt: HostRuntime) -> io::Result<()> {
    if !files::are_given(&rt, 2) {
        return eprintln!(rt; "usage: ledger RECORDS REPLIES");
    }
    let mut err = rt.stderr();
    let a = files::open(&rt, &mut err, 1, b"ledger")?;
    let b = files::open(&rt, &mut err, 2, b"ledger")?;
    let (Some(mut a), Some(mut b)) = (a, b) else {
        return Ok(());
    };
    let mut records = [0u8; INPUT];
    let mut replies = [0u8; INPUT];
    let s = run(1, 2, &mut a, &mut b, &mut records, &mut replies);
    let mut records_name = [0u8; NAME];
    let mut replies_name = [0u8; NAME];
    let n = files::name(&rt, 1, &mut records_name);
    let m = files::name(&rt, 2, &mut replies_name);
    finish(
        &rt,
        &mut rt.stdout(),
        &mut err,
        s,
        &a,
        &b,
        &records_name[..n],
        &replies_name[..m],
    )
}

// What is said at the end, of files of these names. A run that has not ended has no answer. That standard output does
// not take the answer is not said here.
fn finish<R: Alloc, O: Write, W: Write, F>(
    rt: &R,
    out: &mut O,
    err: &mut W,
    s: State,
    records_source: &Source<F>,
    replies_source: &Source<F>,
    records: &[u8],
    replies: &[u8],
) -> io::Result<()> {
    let a = s.records;
    let b = s.replies;
    if a.failed {
        return files::unreadable(rt, err, records_source, records, b"ledger");
    }
    if b.failed {
        return files::unreadable(rt, err, replies_source, replies, b"ledger");
    }
    if s.more {
        return err.write_all(b"ledger: more reads than there are numbers of 64 bits\n");
    }
    let _ = match s.broken {
        Some(x) => text::broken(out, watch::plus(s.number, 1), s.rest, x),
        None => text::kept(out, s.book, s.number, s.rest),
    };
    Ok(())
}
