// One line for each reply.
ghost use Rattle.std.specs.Prelude.{◌≡◌, ◌+◌, ◌-◌, ◌*◌, ◌≤◌, length, drop};
ghost use Rattle.wire.specs.Bytes.{over};
ghost use Rattle.paper.specs.Numbers.{u8, u16, bit};
ghost use Rattle.paper.specs.Kinds.{reply_offset, number_place, rest_place, word_width, flags_place, counts_place};
ghost use Rattle.paper.specs.Kinds.{lists_place};
ghost use Rattle.paper.specs.Records.{kind_of};
ghost use Rattle.paper.specs.Ledger.{read_serials, read_tail, read_begun};
ghost use Rattle.stream.specs.Text.{Wrote};
ghost use Rattle.show.specs.Lists.{short_text, long_text, sets_text};
ghost use Rattle.show.specs.Lines.{kind_word, refusal_word, refused_text, done_text, flags_text, told_text, listed_text};
ghost use Rattle.show.specs.Lines.{begun_at, damaged_text, said_text, line_of, rest_of};

use crate::lists;
use crate::lists::Item;
use format::{Kind, kinds};
use paper::Reading;
use stream::text;
use wire::flag_bytes;

// What the record of that reply kind is called; a question mark where none has it, as for every 13.
#[tactic(auto, using(crate::proofs::Wording::no_reply), unfolding(crate::specs::Lines::kind_word))]
fn kind_word(kind: u16) -> &'static [u8]
    ensures { (result.now ≡ kind_word (kind - reply_offset)) × (length result.now ≤ 9) }
{
    match Kind::of_reply(kind) {
        Some(Kind::Configure) => b"configure",
        Some(Kind::Begin) => b"begin",
        Some(Kind::Lists) => b"lists",
        Some(Kind::Finish) => b"finish",
        Some(Kind::Drain) => b"drain",
        Some(Kind::Discard) => b"discard",
        Some(Kind::End) => b"end",
        Some(Kind::Abandon) => b"abandon",
        None => b"?",
    }
}

// A word for each number a session says no with, and for that of a pool, 18.
#[tactic(auto, using(crate::proofs::Wording::other_refusal), unfolding(crate::specs::Lines::refusal_word))]
fn refusal_word(number: u16) -> &'static [u8]
    ensures { (result.now ≡ refusal_word number) × (length result.now ≤ 16) }
{
    match number {
        1 => b"not-configured",
        2 => b"bad-limits",
        3 => b"picture-current",
        4 => b"no-current",
        5 => b"out-of-range",
        6 => b"outside-i32",
        7 => b"surface-held",
        8 => b"serials-spent",
        9 => b"store-full",
        10 => b"no-candidate",
        11 => b"too-many",
        12 => b"bad-entry",
        13 => b"malformed",
        14 => b"no-room",
        18 => b"none-free",
        _ => b"unknown",
    }
}

// A refusal: the record's kind, the number and its word.
fn put_refused(d: &mut [u8], at: usize, reply: &[u8]) -> usize
    requires { at + 45 ≤ length d.old }
    ensures { Wrote d.old at
        (refused_text (kind_of reply.now) (u16 reply.now number_place)) 45 result d.new }
{
    let number = wire::u16_at(reply, kinds::NUMBER_PLACE);
    let a = text::put(d, at, b"refused ");
    let b = text::put(d, a, kind_word(wire::u16_at(reply, kinds::KIND_PLACE)));
    let c = text::put(d, b, b" ");
    let e = text::put_u32(d, c, number as u32);
    let f = text::put(d, e, b" ");
    text::put(d, f, refusal_word(number))
}

// An accepted record that has a tail alone.
fn put_done(d: &mut [u8], at: usize, st: Reading, reply: &[u8]) -> usize
    requires { at + 14320 ≤ length d.old }
    ensures { Wrote d.old at
        (done_text (kind_of reply.now - reply_offset) (read_tail st (drop rest_place reply.now))) 14320
        result d.new }
{
    let a = text::put(d, at, b"done ");
    let b = text::put(d, a, kind_word(wire::u16_at(reply, kinds::KIND_PLACE)));
    lists::put_tail(d, b, st, reply, kinds::REST_PLACE)
}

// The flags of a begun picture that are set, by name; the byte where spare bits are.
fn put_flags(d: &mut [u8], at: usize, flags: u8) -> usize
    requires { at + 28 ≤ length d.old }
    ensures { Wrote d.old at
        (flags_text flags (bit 0 flags) (bit 1 flags) (bit 2 flags) (bit 3 flags)) 28 result d.new }
{
    if !flag_bytes::spare::<4>(flags) {
        let a = text::put(d, at, b" flags=");
        return text::put_u32(d, a, flags as u32);
    }
    let a = text::put_if(d, at, flag_bytes::bit::<0>(flags), b" norasl");
    let b = text::put_if(d, a, flag_bytes::bit::<1>(flags), b" output");
    let c = text::put_if(d, b, flag_bytes::bit::<2>(flags), b" valid");
    text::put_if(d, c, flag_bytes::bit::<3>(flags), b" noprior")
}

// "POC i32, flags u8, .. serial u32" of a begun picture.
fn put_told(d: &mut [u8], at: usize, reply: &[u8]) -> usize
    requires { at + 67 ≤ length d.old }
    ensures { Wrote d.old at
        (told_text (u8 reply.now flags_place) (read_begun (drop rest_place reply.now))) 67 result
        d.new }
{
    let a = text::put(d, at, b"begun poc=");
    let b = text::put_signed(d, a, wire::u32_at(reply, kinds::POC_PLACE));
    let c = put_flags(d, b, wire::byte(reply, kinds::FLAGS_PLACE));
    let e = text::put(d, c, b" serial=");
    text::put_u32(d, e, wire::u32_at(reply, kinds::SERIAL_PLACE))
}

// The sets Before, After and Foll.
fn put_short(d: &mut [u8], at: usize, reply: &[u8]) -> usize
    requires { at + 8436 ≤ length d.old }
    ensures { Wrote d.old at
        (short_text (read_begun (drop rest_place reply.now)).sets) 8436 result d.new }
{
    let before = wire::byte(reply, kinds::BEFORE_PLACE) as usize;
    let after = wire::byte(reply, kinds::AFTER_PLACE) as usize;
    let foll = wire::byte(reply, kinds::FOLL_PLACE) as usize;
    let a = lists::put_list(
        d,
        at,
        b" before=",
        Item::Serial,
        reply,
        kinds::MEMBERS_PLACE,
        before,
    );
    let b = lists::put_list(
        d,
        a,
        b" after=",
        Item::Serial,
        reply,
        kinds::MEMBERS_PLACE + kinds::WORD * before,
        after,
    );
    lists::put_list(
        d,
        b,
        b" foll=",
        Item::Serial,
        reply,
        kinds::MEMBERS_PLACE + kinds::WORD * (before + after),
        foll,
    )
}

// How many members the sets Before, After and Foll have.
fn short_members(reply: &[u8]) -> usize
    ensures { (result ≡ u8 reply.now counts_place + u8 reply.now (counts_place + 1) + u8
        reply.now (counts_place + 2)) × (result ≤ 765) }
{
    let before = wire::byte(reply, kinds::BEFORE_PLACE) as usize;
    let after = wire::byte(reply, kinds::AFTER_PLACE) as usize;
    let foll = wire::byte(reply, kinds::FOLL_PLACE) as usize;
    before + after + foll
}

// The sets LtCurr and LtFoll.
fn put_long(d: &mut [u8], at: usize, reply: &[u8]) -> usize
    requires { at + 5626 ≤ length d.old }
    ensures { Wrote d.old at (long_text (read_begun (drop rest_place reply.now)).sets) 5626 result
        d.new }
{
    let from = kinds::MEMBERS_PLACE + kinds::WORD * short_members(reply);
    let curr = wire::byte(reply, kinds::LT_CURR_PLACE) as usize;
    let foll = wire::byte(reply, kinds::LT_FOLL_PLACE) as usize;
    let a = lists::put_list(d, at, b" ltcurr=", Item::Serial, reply, from, curr);
    lists::put_list(
        d,
        a,
        b" ltfoll=",
        Item::Serial,
        reply,
        from + kinds::WORD * curr,
        foll,
    )
}

// The five sets.
fn put_sets(d: &mut [u8], at: usize, reply: &[u8]) -> usize
    requires { at + 14062 ≤ length d.old }
    ensures { Wrote d.old at
        (sets_text (read_begun (drop rest_place reply.now)).sets) 14062 result d.new }
{
    let a = put_short(d, at, reply);
    put_long(d, a, reply)
}

// An accepted begin.
fn put_begun(d: &mut [u8], at: usize, st: Reading, reply: &[u8]) -> usize
    requires { at + 28435 ≤ length d.old }
    ensures { Wrote d.old at (begun_at st reply.now) 28435 result d.new }
{
    let from = kinds::MEMBERS_PLACE + kinds::WORD * format::members(reply);
    let a = put_told(d, at, reply);
    let b = put_sets(d, a, reply);
    lists::put_tail(d, b, st, reply, from)
}

// Accepted lists: "two u8 lengths, the u32 serials".
fn put_lists(d: &mut [u8], at: usize, reply: &[u8]) -> usize
    requires { at + 5623 ≤ length d.old }
    ensures { Wrote d.old at
        (listed_text (read_serials (u8 reply.now rest_place) (drop lists_place reply.now))
        (read_serials (u8 reply.now (rest_place + 1))
        (drop (word_width * u8 reply.now rest_place) (drop lists_place reply.now)))) 5623 result
        d.new }
{
    let n = wire::byte(reply, kinds::LENGTH0_PLACE) as usize;
    let m = wire::byte(reply, kinds::LENGTH1_PLACE) as usize;
    let a = text::put(d, at, b"lists");
    let b = lists::put_list(d, a, b" l0=", Item::Serial, reply, kinds::LISTS_PLACE, n);
    lists::put_list(
        d,
        b,
        b" l1=",
        Item::Serial,
        reply,
        kinds::LISTS_PLACE + kinds::WORD * n,
        m,
    )
}

// What is no whole reply.
fn put_damaged(d: &mut [u8], at: usize, reply: &[u8]) -> usize
    requires { at + 60 ≤ length d.old }
    ensures { Wrote d.old at (damaged_text reply.now) 60 result d.new }
{
    let a = text::put(d, at, b"damaged reply of ");
    let b = text::put_u64(d, a, reply.len() as u64);
    let c = text::put(d, b, b" bytes, kind ");
    text::put_u32(d, c, wire::u16_at(reply, kinds::KIND_PLACE) as u32)
}

// One reply, by its kind.
fn put_reply(d: &mut [u8], at: usize, st: Reading, reply: &[u8]) -> usize
    requires { at + 28435 ≤ length d.old }
    ensures { Wrote d.old at (said_text st reply.now) 28435 result d.new }
{
    if !format::is_whole(st, reply) {
        return put_damaged(d, at, reply);
    }
    if wire::u16_at(reply, kinds::NUMBER_PLACE) != 0 {
        return put_refused(d, at, reply);
    }
    let kind = wire::u16_at(reply, kinds::KIND_PLACE);
    if kind == Kind::Begin.reply() {
        return put_begun(d, at, st, reply);
    }
    if kind == Kind::Lists.reply() {
        return put_lists(d, at, reply);
    }
    put_done(d, at, st, reply)
}

// The line of a reply: its number in the stream, then what it says.
pub(crate) fn line(st: Reading, number: u64, reply: &[u8], out: &mut [u8]) -> usize
    requires { 28457 ≤ length out.old }
    ensures { (result ≡ length (line_of st number reply.now)) × (result ≤ 28457)
        × (out.new ≡ over (line_of st number reply.now) out.old) }
{
    let a = text::put_u64(out, 0, number);
    let b = text::put(out, a, b" ");
    let c = put_reply(out, b, st, reply);
    text::put(out, c, b"\n")
}

// The line of `n` bytes at the end of the stream that are no whole reply.
pub(crate) fn rest(number: u64, n: usize, out: &mut [u8]) -> usize
    requires { 28457 ≤ length out.old }
    ensures { (result ≡ length (rest_of number n)) × (result ≤ 28457)
        × (out.new ≡ over (rest_of number n) out.old) }
{
    let a = text::put_u64(out, 0, number);
    let b = text::put(out, a, b" damaged: ");
    let c = text::put_u64(out, b, n as u64);
    text::put(out, c, b" bytes at the end are no whole reply\n")
}
