// Whether the bytes of a reply are whole: the length that its kind and its counts call for.
ghost use Rattle.std.specs.Prelude.{◌≡◌, cond, ◌+◌, ◌*◌, ◌≤◌, ltb};
ghost use Rattle.paper.specs.WholeReply.{tail_end, tail_place, members_of, reply_end, reply_kind, whole_reply};
ghost use Rattle.paper.specs.Reading.{shown_width_in};
ghost use Rattle.format.specs.Counts.{past_count};

use crate::carried::shown_width;
use crate::kinds;
use crate::kinds::Kind;
use paper::Reading;

// The place behind a count at a place and n bytes more; a place behind every reply stays.
fn past(at: usize, n: usize) -> usize
    requires { n ≤ 65025 }
    ensures { (result ≡ cond (ltb at 65539) (at + 1 + n) at) × (result ≤ at + 1 + n) }
{
    if at < 65539 { at + 1 + n } else { at }
}

// The place behind a count at a place and as many items of that width.
pub fn behind(reply: &[u8], at: usize, width: u8) -> usize
    ensures { (result ≡ past_count width reply.now at) × (result ≤ at + 1 + 255 * width) }
{
    past(at, usize::from(width) * usize::from(wire::byte(reply, at)))
}

// The place behind a count at a place and as many pictures handed out.
pub fn behind_shown(st: Reading, reply: &[u8], at: usize) -> usize
    ensures { (result ≡ past_count (shown_width_in st) reply.now at)
        × (result ≤ at + 1 + 255 * shown_width_in st) }
{
    behind(reply, at, shown_width(st))
}

// The end of the tail at a place.
fn tail_end(st: Reading, reply: &[u8], at: usize) -> usize
    requires { at ≤ 5120 }
    ensures { result ≡ tail_end (shown_width_in st) reply.now at }
{
    let second = behind_shown(st, reply, at);
    let third = behind(reply, second, kinds::WORD_WIDTH);
    behind(reply, third, kinds::WORD_WIDTH)
}

// The members of the five sets of a begun picture: "five u8 counts".
pub fn members(reply: &[u8]) -> usize
    ensures { (result ≡ members_of reply.now) × (result ≤ 1275) }
{
    let a = usize::from(wire::byte(reply, kinds::BEFORE_PLACE));
    let b = usize::from(wire::byte(reply, kinds::AFTER_PLACE));
    let c = usize::from(wire::byte(reply, kinds::FOLL_PLACE));
    let d = usize::from(wire::byte(reply, kinds::LT_CURR_PLACE));
    let e = usize::from(wire::byte(reply, kinds::LT_FOLL_PLACE));
    a + b + c + d + e
}

// The place of the tail in an accepted reply that has one.
pub fn tail_place(reply: &[u8]) -> usize
    ensures { (result ≡ tail_place reply.now) × (result ≤ 5120) }
{
    if wire::u16_at(reply, kinds::KIND_PLACE) == Kind::Begin.reply() {
        return kinds::MEMBERS_PLACE + kinds::WORD * members(reply);
    }
    kinds::REST_PLACE
}

// The length that the kind and the counts call for.
#[tactic(auto, unfolding(paper::specs::WholeReply::reply_end))]
fn reply_end(st: Reading, reply: &[u8]) -> usize
    ensures { result ≡ reply_end st reply.now }
{
    if wire::u16_at(reply, kinds::NUMBER_PLACE) != 0 {
        return kinds::REST_PLACE;
    }
    if wire::u16_at(reply, kinds::KIND_PLACE) == Kind::Lists.reply() {
        let n = usize::from(wire::byte(reply, kinds::LENGTH0_PLACE));
        let m = usize::from(wire::byte(reply, kinds::LENGTH1_PLACE));
        return kinds::LISTS_PLACE + kinds::WORD * (n + m);
    }
    tail_end(st, reply, tail_place(reply))
}

// Whether the reply has a kind: that of one of the records, or that of number 13 with a refusal number.
fn kind_known(reply: &[u8]) -> bool
    ensures { result ≡ reply_kind reply.now }
{
    let k = wire::u16_at(reply, kinds::KIND_PLACE);
    let n = wire::u16_at(reply, kinds::NUMBER_PLACE);
    Kind::of_reply(k).is_some() || k == kinds::MALFORMED && n != 0
}

// Whether the bytes are a whole reply, behind those that left this reading.
#[tactic(auto, unfolding(paper::specs::WholeReply::whole_reply))]
pub fn is_whole(st: Reading, reply: &[u8]) -> bool
    ensures { result ≡ whole_reply st reply.now }
{
    let len = reply.len();
    (kinds::REST_PLACE <= len)
        & ((len == kinds::BODY_PLACE + usize::from(wire::u16_at(reply, 0)))
            & (kind_known(reply) & (len == reply_end(st, reply))))
}
