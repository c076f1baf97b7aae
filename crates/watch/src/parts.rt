// Each kind of reply against the book.
ghost use Rattle.std.specs.Prelude.{◌≡◌, ◌+◌, ◌-◌, ◌≤◌, ◌<◌, drop};
ghost use Rattle.paper.specs.Numbers.{u8};
ghost use Rattle.paper.specs.Kinds.{reply_offset, rest_place, lists_place};
ghost use Rattle.paper.specs.Records.{kind_of};
ghost use Rattle.paper.specs.Ledger.{names, read_serials, read_tail, read_begun, read_reply, line_of, none, events};
ghost use Rattle.paper.specs.Ledger.{clearing};
ghost use Rattle.paper.specs.Blame.{first_serial, strangers};
ghost use Rattle.watch.specs.Book.{view, Good};
ghost use Rattle.watch.specs.Parts.{part_in};
ghost use Rattle.watch.specs.Judging.{Tidy, Judged, Lists, Ends, Abandons, Lands, calls, left_part};
ghost use Rattle.watch.specs.Places.{started_in};

use crate::events::tail;
use crate::held::{has_any, joined};
use crate::line::Ask;
use crate::replies::kind_answered;
use crate::{Book, Lines, Part};
use format::{Kind, behind, behind_shown, kinds, members};
use paper::{Blamed, Line, Reading, Serial, Surface};
use store::Store;
use wire::flag_bytes;

// Whether a member is missing or one of these lines.
fn is_known(l: Lines, n: Serial) -> bool
    ensures { result ≡ calls (view l) n }
{
    n.0 == Store::MISSING || has_any(l, Ask::Named(n))
}

// The first of n words from a place on that names neither a missing entry nor one of these lines.
pub(crate) fn stranger(l: Lines, reply: &[u8], at: usize, n: usize) -> Blamed
    requires { (n ≤ 2000) × (at ≤ 10000) }
    ensures { result ≡ first_serial (strangers (read_serials n (drop at reply.now)) (view l)) }
{
    for i in 0..n {
        let named = Serial(wire::u32_at(reply, at + kinds::WORD * i));
        if !is_known(l, named) {
            return Blamed::Picture(named);
        }
    }
    Blamed::Nothing
}

// Whether n words from a place on name only missing entries and these lines.
fn names_known(l: Lines, reply: &[u8], at: usize, n: usize) -> bool
    requires { (n ≤ 2000) × (at ≤ 10000) }
    ensures { result ≡ names (read_serials n (drop at reply.now)) (view l) }
{
    matches!(stranger(l, reply, at, n), Blamed::Nothing)
}

// The line of a begun picture.
pub(crate) fn line_begun(msg: &[u8], reply: &[u8]) -> Line
    ensures { result ≡ line_of msg.now (read_begun (drop rest_place reply.now)) }
{
    Line {
        serial: Serial(wire::u32_at(reply, kinds::SERIAL_PLACE)),
        surface: Surface(wire::u32_at(msg, kinds::SURFACE_PLACE)),
        poc: wire::i32_at(reply, kinds::POC_PLACE),
        wants: flag_bytes::bit::<1>(wire::byte(reply, kinds::FLAGS_PLACE)),
    }
}

// Whether a begin whose tail stands at a place throws nothing away, or clears: its reply says "no output of prior
// pictures", nothing is handed out, and no line is left.
fn is_clear(st: Reading, left: Lines, reply: &[u8], at: usize) -> bool
    requires { Good left × (at < 20000) }
    ensures { result ≡ clearing (read_begun (drop rest_place reply.now))
        (read_tail st (drop at reply.now)) (view left) }
{
    let second = behind_shown(st, reply, at);
    let said = flag_bytes::bit::<3>(wire::byte(reply, kinds::FLAGS_PLACE));
    (wire::byte(reply, second) == 0) | (said & ((wire::byte(reply, at) == 0) & (left.len == 0)))
}

// Of the lines that a begin with n members leaves: it throws nothing away, or clears, and each of its sets names only
// these.
fn may_leave(st: Reading, l: Lines, reply: &[u8], n: usize) -> Result<(), Part>
    requires { Good l × (n ≤ 1275) }
    ensures { part_in result ≡ left_part st (view l) reply.now n }
{
    if !is_clear(st, l, reply, kinds::MEMBERS_PLACE + kinds::WORD * n) {
        return Err(Part::ThrownByBegin);
    }
    if !names_known(l, reply, kinds::MEMBERS_PLACE, n) {
        return Err(Part::NamesNotHeld);
    }
    Ok(())
}

// A begin: no picture is current, it has the next serial, on a surface that is not held; the tail; then what it leaves.
fn started(b: Book, msg: &[u8], reply: &[u8]) -> Result<Book, Part>
    requires { Tidy b }
    ensures { Judged b msg.now (started_in b.reading reply.now) result }
{
    if b.current.is_some() {
        return Err(Part::BegunWhileCurrent);
    }
    let e = line_begun(msg, reply);
    if u64::from(e.serial.0) != b.begun {
        return Err(Part::NotNextSerial);
    }
    if has_any(b.held, Ask::Lies(e.surface)) {
        return Err(Part::BegunOnHeld);
    }
    let n = members(reply);
    let held = tail(
        b.reading,
        b.held,
        reply,
        kinds::MEMBERS_PLACE + kinds::WORD * n,
    )?;
    may_leave(b.reading, held, reply, n)?;
    Ok(Book {
        held,
        current: Some(e),
        begun: b.begun + 1,
        ..b
    })
}

// Lists: a picture is current, and they name only pictures that are held.
fn listed(b: Book, reply: &[u8]) -> Result<Book, Part>
    requires { Tidy b }
    ensures { Lists b
        (read_serials (u8 reply.now rest_place + u8 reply.now (rest_place + 1))
        (drop lists_place reply.now)) result }
{
    if b.current.is_none() {
        return Err(Part::NoCurrent);
    }
    let n = wire::byte(reply, kinds::LENGTH0_PLACE) as usize
        + wire::byte(reply, kinds::LENGTH1_PLACE) as usize;
    if !names_known(joined(b.held, b.current), reply, kinds::LISTS_PLACE, n) {
        return Err(Part::NamesNotHeld);
    }
    Ok(b)
}

// Whether the tail at a place tells nothing.
fn is_quiet(st: Reading, reply: &[u8], at: usize) -> bool
    requires { at < 20000 }
    ensures { result ≡ none (events (read_tail st (drop at reply.now))) }
{
    let second = behind_shown(st, reply, at);
    let third = behind(reply, second, kinds::WORD_WIDTH);
    (wire::byte(reply, at) == 0)
        & ((wire::byte(reply, second) == 0) & (wire::byte(reply, third) == 0))
}

// An end of sequence moves nothing.
fn ended(b: Book, reply: &[u8]) -> Result<Book, Part>
    requires { Tidy b }
    ensures { Ends b (read_tail b.reading (drop rest_place reply.now)) result }
{
    if !is_quiet(b.reading, reply, kinds::REST_PLACE) {
        return Err(Part::EndMoves);
    }
    Ok(b)
}

// Abandon: a picture is current; the tail, of the current picture alone, of which nothing is left.
fn abandoned(b: Book, reply: &[u8]) -> Result<Book, Part>
    requires { Tidy b }
    ensures { Abandons b (read_tail b.reading (drop rest_place reply.now)) result }
{
    if b.current.is_none() {
        return Err(Part::NoCurrent);
    }
    let alone = joined(Lines::none(), b.current);
    let left = tail(b.reading, alone, reply, kinds::REST_PLACE)?;
    if left.len != 0 {
        return Err(Part::LeavesSome);
    }
    Ok(Book { current: None, ..b })
}

// Finish, drain, configure, discard: a finish has a current picture; only a discard throws away; the tail; only a finish
// leaves something, and no more than a store holds.
fn landed(b: Book, reply: &[u8]) -> Result<Book, Part>
    requires { Tidy b }
    ensures { Lands b (kind_of reply.now - reply_offset)
        (read_tail b.reading (drop rest_place reply.now)) result }
{
    let kind = kind_answered(reply);
    let finishes = kind == Some(Kind::Finish);
    if finishes & b.current.is_none() {
        return Err(Part::NoCurrent);
    }
    let second = behind_shown(b.reading, reply, kinds::REST_PLACE);
    if (kind != Some(Kind::Discard)) & (wire::byte(reply, second) != 0) {
        return Err(Part::ThrownByCall);
    }
    let all = joined(b.held, b.current);
    let held = tail(b.reading, all, reply, kinds::REST_PLACE)?;
    if !finishes & (held.len != 0) {
        return Err(Part::LeavesSome);
    }
    if Store::CAPACITY < held.len {
        return Err(Part::StoresTooMany);
    }
    Ok(Book {
        held,
        current: None,
        ..b
    })
}

// The book after a whole reply, but for the tally and the reading, or the part of demand 3 that it breaks.
pub(crate) fn judge(b: Book, msg: &[u8], reply: &[u8]) -> Result<Book, Part>
    requires { Tidy b }
    ensures { Judged b msg.now (read_reply b.reading reply.now) result }
{
    if wire::u16_at(reply, kinds::NUMBER_PLACE) != 0 {
        return Ok(b);
    }
    match kind_answered(reply) {
        Some(Kind::Begin) => started(b, msg, reply),
        Some(Kind::Lists) => listed(b, reply),
        Some(Kind::End) => ended(b, reply),
        Some(Kind::Abandon) => abandoned(b, reply),
        _ => landed(b, reply),
    }
}
