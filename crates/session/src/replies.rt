// Writes replies into the lent buffer. A function that writes a part of a reply at the place `at` answers the place
// behind what it wrote.
ghost use Rattle.std.specs.Prelude.{◌≡◌, ◌∷◌, ◌++◌, ◌+◌, ◌*◌, ◌≤◌, ℕ, length, map};
ghost use Rattle.std.proofs.lemmas.List.Edits.{sets};
ghost use Rattle.paper.specs.Words.{flat};
ghost use Rattle.paper.specs.Numbers.{bytes16};
ghost use Rattle.paper.specs.Kinds.{begin_kind, reply_to, rest_place, word_width, shown_width, begun_counts};
ghost use Rattle.paper.specs.Replies.{shown_bytes, words, tail_bytes, framed, bytes_of};
ghost use Rattle.paper.specs.Replies.Reply.{Listed};
ghost use Rattle.paper.specs.Output.{quiet};
ghost use Rattle.store.specs.Tails.{tail_in, GoodTail};
ghost use Rattle.session.specs.Written.{numbers_from, told_bytes, sizes_bytes, member_bytes, begun_part, list_in};
ghost use Rattle.session.specs.Written.{FewMembers, Listable};
ghost use Rattle.session.specs.Numbered.{number_of};
ghost use Rattle.session.specs.Said.{Roomy, Says, Refuses, reply_kind};

use crate::{Answer, Refusal};
use derivation::ref_lists::RefList;
use format::{Kind, kinds};
use paper::{Serial, Shown, Surface};
use store::{Moved, Sizes, Store};

// Writes the first six bytes of a reply: "u16 body length, u16 kind", "its body starts with a u16 refusal number".
pub(crate) fn put_head(d: &mut [u8], body: u16, kind: u16, number: u16) -> usize
    requires { rest_place ≤ length d.old }
    ensures { (result ≡ rest_place)
        × (d.new ≡ sets d.old 0 (bytes16 body ++ bytes16 kind ++ bytes16 number)) }
{
    let a = wire::put_u16(d, 0, body);
    let b = wire::put_u16(d, a, kind);
    wire::put_u16(d, b, number)
}

// The reply to a refused record: "writes six bytes".
pub(crate) fn refuse(reply: &mut [u8], kind: u16, why: Refusal) -> Answer
    requires { Roomy reply.old }
    ensures { Refuses kind (number_of why) reply.old result reply.new }
{
    let n = u16::from(why);
    let len = put_head(reply, 2, kind, n);
    Answer { number: n, len }
}

// "(serial u32, surface u32, POC i32)" of a picture handed out.
fn put_shown(d: &mut [u8], at: usize, p: Shown) -> usize
    requires { at + shown_width ≤ length d.old }
    ensures { (result ≡ at + shown_width) × (d.new ≡ sets d.old at (shown_bytes p)) }
{
    let a = wire::put_u32(d, at, p.serial.0);
    let b = wire::put_u32(d, a, p.surface.0);
    wire::put_u32(d, b, wire::bits(p.poc))
}

// "u8 count and (serial u32, surface u32, POC i32) of each picture handed out".
fn put_handed(d: &mut [u8], at: usize, xs: &[Shown]) -> usize
    requires { (length xs.now ≤ 16) × (at + 1 + shown_width * length xs.now ≤ length d.old) }
    ensures { (result ≡ at + (1 + shown_width * length xs.now))
        × (d.new ≡ sets d.old at (length xs.now ∷ flat shown_bytes xs.now)) }
{
    let mut end = wire::put_u8(d, at, xs.len() as u8);
    for p in xs {
        end = put_shown(d, end, *p);
    }
    end
}

// What a reply names by 32 bits: a picture by its serial, a surface by its number.
pub(crate) trait Named: Copy {
    ghost number: { Self → ℕ };

    fn number(self) -> u32
        ensures { result ≡ number self };
}

impl Named for Serial {
    ghost number = { λ x. x.0 };

    fn number(self) -> u32 {
        self.0
    }
}

impl Named for Surface {
    ghost number = { λ x. x.0 };

    fn number(self) -> u32 {
        self.0
    }
}

// The numbers of a run, one behind the other.
fn put_words<T: Named>(d: &mut [u8], at: usize, xs: &[T]) -> usize
    requires { at + word_width * length xs.now ≤ length d.old }
    ensures { (result ≡ at + word_width * length xs.now)
        × (d.new ≡ sets d.old at (words (map T.number xs.now))) }
{
    let mut end = at;
    for x in xs {
        end = wire::put_u32(d, end, x.number());
    }
    end
}

// "u8 count and serials thrown away", "u8 count and surfaces released".
fn put_counted<T: Named>(d: &mut [u8], at: usize, xs: &[T]) -> usize
    requires { (length xs.now ≤ 17) × (at + 1 + word_width * length xs.now ≤ length d.old) }
    ensures { (result ≡ at + (1 + word_width * length xs.now))
        × (d.new ≡ sets d.old at (length xs.now ∷ words (map T.number xs.now))) }
{
    let a = wire::put_u8(d, at, xs.len() as u8);
    put_words(d, a, xs)
}

// A tail: what was handed out, thrown away and released.
fn put_tail(d: &mut [u8], at: usize, m: Moved) -> usize
    requires { GoodTail m × (at + 350 ≤ length d.old) }
    ensures { (result ≡ at + length (tail_bytes (tail_in m)))
        × (d.new ≡ sets d.old at (tail_bytes (tail_in m))) }
{
    let a = put_handed(d, at, &m.handed[..m.shown]);
    let b = put_counted(d, a, &m.thrown[..m.dropped]);
    put_counted(d, b, &m.released[..m.freed])
}

// The reply to an accepted record of that kind: the refusal number 0 and a tail.
pub(crate) fn put_done(d: &mut [u8], kind: Kind, x: Moved) -> usize
    requires { GoodTail x × Roomy d.old }
    ensures { Says (framed (reply_kind kind) 0 (tail_bytes (tail_in x))) d.old result d.new }
{
    let len = put_tail(d, kinds::REST_PLACE, x);
    put_head(d, (len - kinds::BODY_PLACE) as u16, kind.reply(), 0);
    len
}

// The reply to an accepted record of that kind that moved nothing: the refusal number 0 and an empty tail.
pub(crate) fn put_quiet(d: &mut [u8], kind: Kind) -> usize
    requires { Roomy d.old }
    ensures { Says (framed (reply_kind kind) 0 (tail_bytes quiet)) d.old result d.new }
{
    let n = put_head(d, 5, kind.reply(), 0);
    let a = wire::put_u8(d, n, 0);
    let b = wire::put_u8(d, a, 0);
    wire::put_u8(d, b, 0)
}

// The reply to accepted lists: "0, two u8 lengths, the u32 serials".
pub(crate) fn put_lists(d: &mut [u8], x: RefList, y: RefList) -> usize
    requires { Listable x × Listable y × Roomy d.old }
    ensures { Says (bytes_of (Listed (list_in x) (list_in y))) d.old result d.new }
{
    let a = wire::put_u8(d, kinds::REST_PLACE, x.len as u8);
    let b = wire::put_u8(d, a, y.len as u8);
    let c = put_words(d, b, &x.items[..x.len]);
    let len = put_words(d, c, &y.items[..y.len]);
    put_head(d, (len - kinds::BODY_PLACE) as u16, Kind::Lists.reply(), 0);
    len
}

// What begin says of its picture, but for its sets.
#[derive(Clone, Copy)]
pub(crate) struct Told {
    pub(crate) poc: i32,
    pub(crate) flags: u8,
    pub(crate) serial: Serial,
}

// "POC i32, flags u8, .. serial u32" of a begun picture.
fn put_told(d: &mut [u8], at: usize, t: Told) -> usize
    requires { at + begun_counts ≤ length d.old }
    ensures { (result ≡ at + begun_counts) × (d.new ≡ sets d.old at (told_bytes t)) }
{
    let a = wire::put_u32(d, at, wire::bits(t.poc));
    let b = wire::put_u8(d, a, t.flags);
    wire::put_u32(d, b, t.serial.0)
}

// "five u8 counts (StCurrBefore, StCurrAfter, StFoll, LtCurr, LtFoll)".
fn put_sizes(d: &mut [u8], at: usize, x: Sizes) -> usize
    requires { FewMembers x × (at + 5 ≤ length d.old) }
    ensures { (result ≡ at + 5) × (d.new ≡ sets d.old at (sizes_bytes x)) }
{
    let a = wire::put_u8(d, at, x.before as u8);
    let b = wire::put_u8(d, a, x.after as u8);
    let c = wire::put_u8(d, b, x.foll as u8);
    let e = wire::put_u8(d, c, x.long as u8);
    wire::put_u8(d, e, x.lt_foll as u8)
}

// "their members in that order as u32 serials". The members lie in two runs: StCurrBefore, StCurrAfter and LtCurr in
// first, StFoll and LtFoll in second.
fn put_members(
    d: &mut [u8],
    at: usize,
    x: Sizes,
    first: [Serial; Store::CAPACITY],
    second: [Serial; Store::CAPACITY],
) -> usize
    requires { FewMembers x × (at + 64 ≤ length d.old) }
    ensures { (result ≡ at + length (member_bytes x first second))
        × (d.new ≡ sets d.old at (member_bytes x first second)) }
{
    let n = x.before + x.after;
    let a = put_words(d, at, &first[..n]);
    let b = put_words(d, a, &second[..x.foll]);
    let c = put_words(d, b, &first[n..n + x.long]);
    put_words(d, c, &second[x.foll..x.foll + x.lt_foll])
}

// The reply to an accepted begin.
pub(crate) fn put_begun(
    d: &mut [u8],
    t: Told,
    x: Sizes,
    first: [Serial; Store::CAPACITY],
    second: [Serial; Store::CAPACITY],
    y: Moved,
) -> usize
    requires { FewMembers x × (GoodTail y × Roomy d.old) }
    ensures { Says (framed (reply_to begin_kind) 0 (begun_part t x first second ++ tail_bytes (tail_in y)))
        d.old result d.new }
{
    let a = put_told(d, kinds::REST_PLACE, t);
    let b = put_sizes(d, a, x);
    let e = put_members(d, b, x, first, second);
    let len = put_tail(d, e, y);
    put_head(d, (len - kinds::BODY_PLACE) as u16, Kind::Begin.reply(), 0);
    len
}
