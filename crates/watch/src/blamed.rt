// The picture and the surface that an exchange breaks its part with. This is asked once, of an exchange that broke one.
ghost use Rattle.std.specs.Prelude.{◌≡◌, ◌+◌, ◌-◌, ◌<◌, drop};
ghost use Rattle.paper.specs.Numbers.{u8};
ghost use Rattle.paper.specs.Kinds.{reply_offset, rest_place, lists_place};
ghost use Rattle.paper.specs.Records.{kind_of};
ghost use Rattle.paper.specs.Ledger.{read_serials, read_tail, read_reply};
ghost use Rattle.paper.specs.Blame.{first_serial, listed_blame, movable, moved_blame, done_blame, reply_blame, blamed};
ghost use Rattle.watch.specs.Book.{Holds, view, Good, book_in};
ghost use Rattle.watch.specs.Parts.{number_of};
ghost use Rattle.watch.specs.Judging.{Tidy, page_of};
ghost use Rattle.watch.specs.Places.{started_in};

use crate::events::tail;
use crate::held::{found, joined, of_line, tidy};
use crate::line::Ask;
use crate::parts::{line_begun, stranger};
use crate::replies::kind_answered;
use crate::{Book, Lines, Part, hear};
use format::{Kind, behind_shown, kinds, members};
use paper::{Blamed, Reading, Serial};

// The first picture that the tail at a place throws away.
fn first_thrown(st: Reading, reply: &[u8], at: usize) -> Blamed
    requires { at < 20000 }
    ensures { result ≡ first_serial (read_tail st (drop at reply.now)).thrown }
{
    let second = behind_shown(st, reply, at);
    if wire::byte(reply, second) == 0 {
        return Blamed::Nothing;
    }
    Blamed::Picture(Serial(wire::u32_at(reply, second + 1)))
}

// Of a begin: the current picture; the one begun; the one that lies on its surface; the tail's; the first one thrown
// away; the first that a set names and that is not held.
fn started_blame(b: Book, part: Part, msg: &[u8], reply: &[u8]) -> Blamed
    requires { Tidy b }
    ensures { result ≡ reply_blame (number_of part) (page_of b) msg.now (started_in b.reading reply.now) }
{
    let e = line_begun(msg, reply);
    let n = members(reply);
    let at = kinds::MEMBERS_PLACE + kinds::WORD * n;
    match part {
        Part::BegunWhileCurrent => of_line(b.current, Blamed::Nothing),
        Part::NotNextSerial => Blamed::Both(e.serial, e.surface),
        Part::BegunOnHeld => found(b.held, Ask::Lies(e.surface), Blamed::Nothing),
        _ => match tail(b.reading, b.held, reply, at) {
            Err(x) => x.blamed,
            Ok(left) => match part {
                Part::ThrownByBegin => first_thrown(b.reading, reply, at),
                _ => stranger(left, reply, kinds::MEMBERS_PLACE, n),
            },
        },
    }
}

// Of lists: the first picture that a list names and that is not held.
fn listed_blame(b: Book, part: Part, reply: &[u8]) -> Blamed
    requires { Tidy b }
    ensures { result ≡ listed_blame (number_of part) (page_of b)
        (read_serials (u8 reply.now rest_place + u8 reply.now (rest_place + 1))
        (drop lists_place reply.now)) }
{
    let n = wire::byte(reply, kinds::LENGTH0_PLACE) as usize
        + wire::byte(reply, kinds::LENGTH1_PLACE) as usize;
    match part {
        Part::NamesNotHeld => stranger(joined(b.held, b.current), reply, kinds::LISTS_PLACE, n),
        _ => Blamed::Nothing,
    }
}

// The lines that the call of this reply may move: an end of sequence none, abandon the current picture's.
fn movable_lines(b: Book, reply: &[u8]) -> Lines
    requires { Tidy b }
    ensures { Holds result (movable (kind_of reply.now - reply_offset) (page_of b)) }
{
    match kind_answered(reply) {
        Some(Kind::End) => Lines::none(),
        Some(Kind::Abandon) => joined(Lines::none(), b.current),
        _ => joined(b.held, b.current),
    }
}

// What the tail of a call breaks these lines with, or the first of them that it leaves.
fn moved_blame(st: Reading, l: Lines, reply: &[u8]) -> Blamed
    requires { Good l }
    ensures { result ≡ moved_blame (read_tail st (drop rest_place reply.now)) (view l) }
{
    match tail(st, l, reply, kinds::REST_PLACE) {
        Err(x) => x.blamed,
        Ok(left) => found(left, Ask::Any, Blamed::Nothing),
    }
}

// Of any other call: nothing; the first picture thrown away; the one that is finished; else the tail's, or what it
// leaves.
fn done_blame(b: Book, part: Part, reply: &[u8]) -> Blamed
    requires { Tidy b }
    ensures { result ≡ done_blame (number_of part) (kind_of reply.now - reply_offset) (page_of b)
        (read_tail b.reading (drop rest_place reply.now)) }
{
    match part {
        Part::NoCurrent => Blamed::Nothing,
        Part::ThrownByCall => first_thrown(b.reading, reply, kinds::REST_PLACE),
        Part::StoresTooMany => of_line(b.current, Blamed::Nothing),
        _ => moved_blame(b.reading, movable_lines(b, reply), reply),
    }
}

// What a whole reply to its record breaks this part with.
fn reply_blame(b: Book, part: Part, msg: &[u8], reply: &[u8]) -> Blamed
    requires { Tidy b }
    ensures { result ≡ reply_blame (number_of part) (page_of b) msg.now (read_reply b.reading reply.now) }
{
    if wire::u16_at(reply, kinds::NUMBER_PLACE) != 0 {
        return Blamed::Nothing;
    }
    match kind_answered(reply) {
        Some(Kind::Begin) => started_blame(b, part, msg, reply),
        Some(Kind::Lists) => listed_blame(b, part, reply),
        _ => done_blame(b, part, reply),
    }
}

// The picture and the surface that one exchange breaks its part with, where the part has one.
pub fn blame(b: Book, msg: &[u8], reply: &[u8]) -> Blamed
    ensures { result ≡ blamed b.reading (book_in b) msg.now reply.now }
{
    let Err(part) = hear(b, msg, reply) else {
        return Blamed::Nothing;
    };
    // Of the first two parts the reply tells nothing.
    if part.number() < 3 {
        return Blamed::Nothing;
    }
    reply_blame(tidy(b), part, msg, reply)
}
