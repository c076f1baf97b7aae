// Begin: its refusals in their order, and its five steps.
ghost use Rattle.std.specs.Prelude.{◌≡◌, cond, ◌+◌, eqb, Ok};
ghost use Rattle.paper.specs.Kinds.{begin_kind, reply_to};
ghost use Rattle.paper.specs.Step.{begin_of};
ghost use Rattle.session.specs.View.{memory, session_in};
ghost use Rattle.session.specs.Said.{Calls, Roomy};
ghost use Rattle.session.specs.Target.{fields_with, fields_at};
ghost use Rattle.session.specs.Written.{FewMembers};
ghost use Rattle.session.specs.Starts.{flags_from, flags_number, prev_from, current_from, told_from, refs_from};
ghost use Rattle.session.specs.Starts.{Passed, Placed, Wished};

use crate::replies::Told;
use crate::{FRONT, Refusal, records, replies, words};
use derivation::ref_lists::Refs;
use derivation::{nal, poc};
use format::records::BeginFields;
use paper::{Current, Limits, Serial, Surface, Tid0, Wish};
use store::{Sizes, Store};
use wire::flag_bytes;

// The flags that step 1 of a begin derives: NoRaslOutputFlag, the output flag, valid for prevTid0Pic, no output of
// prior pictures, and `over`, an IRAP picture with NoRaslOutputFlag.
#[derive(Clone, Copy)]
pub(crate) struct Flags {
    pub(crate) rasl: bool,
    pub(crate) output: bool,
    pub(crate) valid: bool,
    pub(crate) prior: bool,
    pub(crate) over: bool,
}

// What steps 1 and 2 of a begin derive: the flags, the MSB and the POC.
#[derive(Clone, Copy)]
pub(crate) struct Start {
    pub(crate) flags: Flags,
    pub(crate) msb: i32,
    pub(crate) poc: i32,
}

// Step 1 of a begin, the flags (8.1.3, C.5.2.2).
fn flags_of(start: bool, ended: bool, h: BeginFields) -> Flags
    ensures { result ≡ flags_from start ended h }
{
    let rasl = nal::no_rasl_output(h.nal, start, ended);
    Flags {
        rasl,
        output: nal::pic_output(h.nal, rasl, flag_bytes::bit::<0>(h.flags)),
        valid: nal::valid_prev(h.nal, h.tid),
        prior: nal::no_prior_output(h.nal, rasl, start, flag_bytes::bit::<1>(h.flags)),
        over: nal::is_irap(h.nal) & rasl,
    }
}

// "flags u8 (bit 0 NoRaslOutputFlag, 1 output flag, 2 valid for prevTid0Pic, 3 no output of prior pictures)".
fn flags_byte(f: Flags) -> u8
    ensures { result ≡ flags_number f }
{
    u8::from(f.rasl) + 2 * u8::from(f.output) + 4 * u8::from(f.valid) + 8 * u8::from(f.prior)
}

// The previous Tid0 picture that step 2 derives the MSB from, if there is one: "MSB 0 for IRAP with NoRaslOutputFlag
// or no previous Tid0 picture".
fn prev_for(over: bool, q: Option<Tid0>) -> Option<Tid0>
    ensures { result ≡ prev_from over q }
{
    if over { None } else { q }
}

// The picture that a begin makes current.
fn current_of(next: Serial, h: BeginFields, t: Start) -> Current
    ensures { result ≡ current_from next.0 h t }
{
    Current {
        serial: next,
        surface: h.surface,
        poc: t.poc,
        lsb: h.lsb,
        msb: t.msb,
        output: t.flags.output,
        valid: t.flags.valid,
    }
}

// The serial after n: "Serials count accepted begins". After the last there is none, and the answer is 0.
fn next_after(n: u32) -> u32
    ensures { result ≡ cond (eqb n 4294967295) 0 (n + 1) }
{
    n.wrapping_add(1)
}

// What the reply says of the picture, but for its sets.
fn told_of(next: Serial, t: Start) -> Told
    ensures { result ≡ told_from next.0 t }
{
    Told {
        poc: t.poc,
        flags: flags_byte(t.flags),
        serial: next,
    }
}

// The sizes of the sets that reference lists are made from.
fn refs_of(x: Sizes) -> Refs
    requires { FewMembers x }
    ensures { result ≡ refs_from x }
{
    Refs {
        before: x.before as u8,
        after: x.after as u8,
        long: x.long as u8,
    }
}

// Steps 4 and 5 of a begin that nothing refuses: marks and sets, then the room that is made for the picture. Writes the
// reply and the words of the session after it.
fn begun(
    front: &mut [u32; FRONT],
    sets: &mut [u32; Store::CAPACITY],
    store: &mut [u32; Store::WORDS],
    msg: &[u8],
    l: Limits,
    h: BeginFields,
    t: Start,
    wishes: &[Wish; Store::CAPACITY],
    reply: &mut [u8],
) -> usize
    requires { Wished (session_in (memory front.old sets.old store.old)) msg.now l h t wishes.now
        × Roomy reply.old }
    ensures { Calls (reply_to begin_kind) (λ s. begin_of s (fields_with h.surface msg.now))
        front sets store reply (Ok result) }
{
    let over = t.flags.over;
    let neg = h.neg as usize;
    let pos = h.pos as usize;
    let lt = h.lt as usize;
    let d = store::derive_and_mark_rps(store, l.k, over, wishes, neg, pos, lt);
    let x = d.sizes;
    let starts = over & !words::is_ended(front);
    let m = store::update_dpb_before_decoding(store, d.store, starts, t.flags.prior, l);
    derivation::members::put_members(sets, d.first, x.before + x.after + x.long);
    let next = words::next_serial(front);
    let len = replies::put_begun(reply, told_of(next, t), x, d.first, d.second, m);
    words::put_begun(
        front,
        current_of(next, h, t),
        refs_of(x),
        next_after(next.0),
    );
    len
}

// Step 3 of a begin whose POC lies in i32: reads what its entries ask for. Refused by 6, else goes on to step 4.
fn begin_at(
    front: &mut [u32; FRONT],
    sets: &mut [u32; Store::CAPACITY],
    store: &mut [u32; Store::WORDS],
    msg: &[u8],
    l: Limits,
    h: BeginFields,
    t: Start,
    reply: &mut [u8],
) -> Result<usize, Refusal>
    requires { Placed (session_in (memory front.old sets.old store.old)) msg.now l h t × Roomy reply.old }
    ensures { Calls (reply_to begin_kind) (λ s. begin_of s (fields_with h.surface msg.now))
        front sets store reply result }
{
    let none = Wish {
        poc: 0,
        used: false,
        whole: false,
    };
    let mut wishes = [none; Store::CAPACITY];
    records::wishes(msg, h, l.k, t.poc, &mut wishes)?;
    Ok(begun(front, sets, store, msg, l, h, t, &wishes, reply))
}

// Steps 1 and 2 of a begin that none of 1, 3, 5, 8 and 7 refuses: flags and POC. Refused by 6, else goes on to step 3.
fn begin_inside(
    front: &mut [u32; FRONT],
    sets: &mut [u32; Store::CAPACITY],
    store: &mut [u32; Store::WORDS],
    msg: &[u8],
    l: Limits,
    h: BeginFields,
    reply: &mut [u8],
) -> Result<usize, Refusal>
    requires { Passed (session_in (memory front.old sets.old store.old)) msg.now l h × Roomy reply.old }
    ensures { Calls (reply_to begin_kind) (λ s. begin_of s (fields_with h.surface msg.now))
        front sets store reply result }
{
    let q = words::prev_in(front);
    let flags = flags_of(words::is_first(front), words::is_ended(front), h);
    let derived = poc::derive_poc(l.k, prev_for(flags.over, q), h.lsb)?;
    let t = Start {
        flags,
        msb: derived.msb,
        poc: derived.poc,
    };
    begin_at(front, sets, store, msg, l, h, t, reply)
}

// Begin, with the surface that the caller chose, if one: refused by the first of "1, 3, 5, 8, 7, 6" that applies. The
// limits and the fields of the record are read once and handed on.
pub(crate) fn begin(
    front: &mut [u32; FRONT],
    sets: &mut [u32; Store::CAPACITY],
    store: &mut [u32; Store::WORDS],
    surface: Option<Surface>,
    msg: &[u8],
    reply: &mut [u8],
) -> Result<usize, Refusal>
    requires { Roomy reply.old }
    ensures { Calls (reply_to begin_kind) (λ s. begin_of s (fields_at surface msg.now)) front sets store reply result }
{
    if !words::is_configured(front) {
        return Err(Refusal::Unconfigured);
    }
    if words::is_busy(front) {
        return Err(Refusal::Busy);
    }
    let l = words::limits_in(front);
    let h = records::begin_fields(surface, msg);
    if !records::begin_ranges(msg, h, l.k) {
        return Err(Refusal::OutOfRange);
    }
    if words::next_serial(front).0 == Store::MISSING {
        return Err(Refusal::SerialsSpent);
    }
    if store::holds_surface(store, h.surface) {
        return Err(Refusal::SurfaceHeld);
    }
    begin_inside(front, sets, store, msg, l, h, reply)
}
