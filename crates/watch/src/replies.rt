// The reply's bytes: whether they answer the record, and what they tell of numbers.
ghost use Rattle.std.specs.Prelude.{◌≡◌, cond, ◌+◌, min, eqb};
ghost use Rattle.paper.specs.Numbers.{u16};
ghost use Rattle.paper.specs.Kinds.{reply_to, malformed_reply, number_place};
ghost use Rattle.paper.specs.Records.{kind_of};
ghost use Rattle.paper.specs.Ledger.{heard, read_reply};
ghost use Rattle.paper.specs.declared.Reading.{Reading};
ghost use Rattle.format.specs.Kind.{RepliesTo};
ghost use Rattle.watch.specs.Book.{tallied, most, gone_on};

use crate::{Book, Tally};
use format::{Kind, behind_shown, further, kinds, tail_place};
use paper::Reading;

// The kind of record that the reply is one to.
pub(crate) fn kind_answered(reply: &[u8]) -> Option<Kind>
    ensures { RepliesTo (kind_of reply.now) result }
{
    Kind::of_reply(wire::u16_at(reply, kinds::KIND_PLACE))
}

// Whether the refusal is one of that record: "kind 256 + record kind", or the kind of number 13.
fn refusal_answers(msg: &[u8], reply: &[u8]) -> bool
    ensures { result ≡ cond (eqb (u16 reply.now number_place) 13)
        (eqb (kind_of reply.now) malformed_reply)
        (eqb (kind_of reply.now) (reply_to (kind_of msg.now))) }
{
    let k = wire::u16_at(reply, kinds::KIND_PLACE);
    if wire::u16_at(reply, kinds::NUMBER_PLACE) == 13 {
        return k == kinds::MALFORMED;
    }
    k.checked_sub(kinds::REPLY) == Some(wire::u16_at(msg, kinds::KIND_PLACE))
}

// Whether the reply is one to that record, whatever came before and whether or not the numbers are those of kinds.
pub(crate) fn answers(msg: &[u8], reply: &[u8]) -> bool
    ensures { (st : Reading)
        → result ≡ heard msg.now (read_reply st reply.now) }
{
    if wire::u16_at(reply, kinds::NUMBER_PLACE) != 0 {
        return refusal_answers(msg, reply);
    }
    let k = wire::u16_at(reply, kinds::KIND_PLACE).saturating_sub(kinds::REPLY);
    k == wire::u16_at(msg, kinds::KIND_PLACE)
}

// The sum, stopping at the greatest value.
pub fn plus(a: u64, n: usize) -> u64
    ensures { result ≡ min (a + n) most }
{
    a.saturating_add(n as u64)
}

// The tally with what the reply tells.
fn tally_of(st: Reading, t: Tally, reply: &[u8]) -> Tally
    ensures { result ≡ tallied t (read_reply st reply.now) }
{
    if wire::u16_at(reply, kinds::NUMBER_PLACE) != 0 {
        return Tally {
            refused: plus(t.refused, 1),
            ..t
        };
    }
    if wire::u16_at(reply, kinds::KIND_PLACE) == Kind::Lists.reply() {
        return Tally {
            lists: plus(t.lists, 1),
            ..t
        };
    }
    let at = tail_place(reply);
    let second = behind_shown(st, reply, at);
    Tally {
        handed: plus(t.handed, wire::byte(reply, at) as usize),
        thrown: plus(t.thrown, wire::byte(reply, second) as usize),
        ..t
    }
}

// The book with its tally and its reading gone on.
pub(crate) fn counted(b: Book, reply: &[u8]) -> Book
    ensures { result ≡ gone_on b reply.now }
{
    Book {
        tally: tally_of(b.reading, b.tally, reply),
        reading: further(b.reading, reply),
        ..b
    }
}
