// Reads a record's bytes: its kind where it is well-formed, and the fields of each body. Behind the end all is 0.
ghost use Rattle.std.specs.Prelude.{◌≡◌, ◌+◌, ◌*◌, ◌≤◌, cond, min};
ghost use Rattle.paper.specs.Numbers.{u8, bit};
ghost use Rattle.paper.specs.Kinds.{neg_place, pos_place, lt_place, begin_length, short_width, long_width};
ghost use Rattle.paper.specs.Kinds.{slice_flags_place};
ghost use Rattle.paper.specs.Records.{kind_of, length_of, body_ok, limits_of, slice_of};
ghost use Rattle.paper.specs.Records.{short_at, long_at};
ghost use Rattle.format.specs.Kind.{number_of, KindIn};
ghost use Rattle.format.specs.Reads.{begin_fields, ReadsAs};

use crate::kinds;
use crate::kinds::Kind;
use paper::{Limits, LongEntry, ShortEntry, Surface};
use wire::flag_bytes;

// The fields of a begin before its entries.
#[derive(Clone, Copy)]
pub struct BeginFields {
    pub nal: u8,
    pub tid: u8,
    pub flags: u8,
    pub lsb: u16,
    pub surface: Surface,
    pub neg: u8,
    pub pos: u8,
    pub lt: u8,
}

// What a lists record says of one list, but for its entry bytes.
#[derive(Clone, Copy)]
pub struct Ask {
    pub uses: bool,
    pub active: u8,
    pub modify: bool,
}

// What a lists record says before its entry bytes: its slice type, its flags, whether the current picture is itself a
// candidate, and what it says of list 0 and of list 1.
#[derive(Clone, Copy)]
pub struct SliceFields {
    pub slice: u8,
    pub flags: u8,
    pub own: bool,
    pub ask0: Ask,
    pub ask1: Ask,
}

// How many entry bytes stand for the list of bit N, whose count of active entries stands at that place.
fn entry_bytes<const N: u32>(msg: &[u8], active: usize) -> usize
    ensures { result ≡ cond (bit N (u8 msg.now slice_flags_place)) (u8 msg.now active) 0 }
{
    if flag_bytes::bit::<N>(wire::byte(msg, kinds::SLICE_FLAGS_PLACE)) {
        usize::from(wire::byte(msg, active))
    } else {
        0
    }
}

// The body length that the counts of a begin call for: 12 bytes, 5 for each short-term and 7 for each long-term entry.
fn begin_length(msg: &[u8]) -> usize
    ensures { result
        ≡ begin_length + short_width * (u8 msg.now neg_place + u8 msg.now pos_place)
        + long_width * u8 msg.now lt_place }
{
    let neg = usize::from(wire::byte(msg, kinds::NEG_PLACE));
    let pos = usize::from(wire::byte(msg, kinds::POS_PLACE));
    let lt = usize::from(wire::byte(msg, kinds::LT_PLACE));
    kinds::BEGIN_LENGTH + kinds::SHORT_WIDTH * (neg + pos) + kinds::LONG_WIDTH * lt
}

// Whether the body length is what kind and counts call for.
fn body_ok(msg: &[u8], kind: Kind, len: usize) -> bool
    requires { (number_of kind ≡ kind_of msg.now) × (len ≡ length_of msg.now) }
    ensures { result ≡ body_ok msg.now }
{
    match kind {
        Kind::Configure => len == kinds::CONFIGURE_LENGTH,
        Kind::Begin => len == begin_length(msg),
        Kind::Lists => {
            let bytes0 = entry_bytes::<0>(msg, kinds::ACTIVE0_PLACE);
            let bytes1 = entry_bytes::<1>(msg, kinds::ACTIVE1_PLACE);
            len == kinds::SLICE_LENGTH + bytes0 + bytes1
        }
        Kind::Finish | Kind::Drain | Kind::Discard | Kind::End | Kind::Abandon => len == 0,
    }
}

// The kind of a well-formed record: number 13 is "slice not exactly head plus body, body over 512 bytes, unknown kind,
// or body length not what kind and counts call for".
#[tactic(auto, using(crate::proofs::Numbered::no_kind), unfolding(paper::specs::Records::well_formed))]
pub fn kind(msg: &[u8]) -> Option<Kind>
    ensures { KindIn msg.now result }
{
    if msg.len() < kinds::BODY_PLACE {
        return None;
    }
    let len = usize::from(wire::u16_at(msg, 0));
    if msg.len() != kinds::BODY_PLACE + len {
        return None;
    }
    if kinds::BODY_LIMIT < len {
        return None;
    }
    let Ok(kind) = Kind::try_from(wire::u16_at(msg, kinds::KIND_PLACE)) else {
        return None;
    };
    if body_ok(msg, kind, len) {
        Some(kind)
    } else {
        None
    }
}

// The limits of a configure.
pub fn limits_of(msg: &[u8]) -> Limits
    ensures { result ≡ limits_of msg.now }
{
    Limits {
        k: wire::byte(msg, kinds::K_PLACE),
        capacity: wire::byte(msg, kinds::CAPACITY_PLACE),
        buffering: wire::byte(msg, kinds::BUFFERING_PLACE),
        reorder: wire::byte(msg, kinds::REORDER_PLACE),
        latency: wire::u16_at(msg, kinds::LATENCY_PLACE),
    }
}

// The fields of a begin before its entries.
pub fn begin_fields(msg: &[u8]) -> BeginFields
    ensures { result ≡ begin_fields msg.now }
{
    let surface = Surface(wire::u32_at(msg, kinds::SURFACE_PLACE));
    BeginFields {
        nal: wire::byte(msg, kinds::NAL_PLACE),
        tid: wire::byte(msg, kinds::TID_PLACE),
        flags: wire::byte(msg, kinds::BEGIN_FLAGS_PLACE),
        lsb: wire::u16_at(msg, kinds::LSB_PLACE),
        surface,
        neg: wire::byte(msg, kinds::NEG_PLACE),
        pos: wire::byte(msg, kinds::POS_PLACE),
        lt: wire::byte(msg, kinds::LT_PLACE),
    }
}

// The place of the i-th of the entries of that width that start at byte `at`, or a place that no bytes reach where the
// sum is not below that.
fn entry_place(at: usize, width: usize, i: usize) -> usize
    ensures { result ≡ min (at + width * i) 9223372036854775808 }
{
    width.saturating_mul(i).saturating_add(at).min(wire::BEYOND)
}

// The i-th of the short-term entries that start at byte `at`.
pub fn short_entry(msg: &[u8], at: usize, i: usize) -> ShortEntry
    ensures { result ≡ short_at msg.now at i }
{
    let p = entry_place(at, kinds::SHORT_WIDTH, i);
    ShortEntry {
        delta: wire::i32_at(msg, p),
        used: wire::byte(msg, p + kinds::ENTRY_USED),
    }
}

// The i-th of the long-term entries that start at byte `at`.
pub fn long_entry(msg: &[u8], at: usize, i: usize) -> LongEntry
    ensures { result ≡ long_at msg.now at i }
{
    let p = entry_place(at, kinds::LONG_WIDTH, i);
    LongEntry {
        lsb: wire::u16_at(msg, p),
        flags: wire::byte(msg, p + kinds::ENTRY_FLAGS),
        cycle: wire::u32_at(msg, p + kinds::ENTRY_CYCLE),
    }
}

// Reads what a lists record says before its entry bytes. A B or a P slice uses list 0, a B slice uses list 1.
#[tactic(auto, unfolding(paper::specs::Records::slice_of))]
pub fn slice_fields(msg: &[u8]) -> SliceFields
    ensures { ReadsAs result (slice_of msg.now) }
{
    let slice = wire::byte(msg, kinds::SLICE_PLACE);
    let flags = wire::byte(msg, kinds::SLICE_FLAGS_PLACE);
    let ask0 = Ask {
        uses: slice < 2,
        active: wire::byte(msg, kinds::ACTIVE0_PLACE),
        modify: flag_bytes::bit::<0>(flags),
    };
    let ask1 = Ask {
        uses: slice == 0,
        active: wire::byte(msg, kinds::ACTIVE1_PLACE),
        modify: flag_bytes::bit::<1>(flags),
    };
    SliceFields {
        slice,
        flags,
        own: flag_bytes::bit::<2>(flags),
        ask0,
        ask1,
    }
}
