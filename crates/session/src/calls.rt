// The calls after begin: finish, drain, configure, discard, end of sequence, abandon.
ghost use Rattle.std.specs.Prelude.{◌≡◌, true, ◌&&◌, List, length, ℕ, ◌<◌};
ghost use Rattle.paper.specs.Records.{limits_of};
ghost use Rattle.paper.specs.State.{is_current};
ghost use Rattle.std.specs.Prelude.{None, Some, Ok};
ghost use Rattle.paper.specs.Kinds.{configure_kind, finish_kind, drain_kind, discard_kind, end_kind, abandon_kind};
ghost use Rattle.paper.specs.Kinds.{reply_to};
ghost use Rattle.paper.specs.Calls.{prev_after, full};
ghost use Rattle.paper.specs.Step.{configure_of, finish_of, drain_of, discard_of, end_of, abandon_of};
ghost use Rattle.store.specs.StoreWords.{stored};
ghost use Rattle.session.specs.View.{memory, session_in, now_at};
ghost use Rattle.session.specs.Said.{CallsStore, CallsFront, Drains, Roomy, reply_kind};

use crate::{FRONT, Refusal, replies, words};
use derivation::ranges;
use format::{Kind, records};
use paper::{Current, Tid0};
use store::Store;

// The previous Tid0 picture once c is finished, where it was q before: "If valid .. it becomes the previous Tid0
// picture."
fn prev_after(q: Option<Tid0>, c: Current) -> Option<Tid0>
    ensures { result ≡ prev_after q c }
{
    if c.valid {
        Some(Tid0 {
            lsb: c.lsb,
            msb: c.msb,
        })
    } else {
        q
    }
}

// Finish where c is the current picture: refused by 9, or stores it.
fn finish_at(
    front: &mut [u32; FRONT],
    store: &mut [u32; Store::WORDS],
    c: Current,
    reply: &mut [u8],
) -> Result<usize, Refusal>
    requires { (now_at front.old ≡ Some c) × Roomy reply.old }
    ensures { CallsStore (reply_to finish_kind) finish_of front store reply result }
{
    let l = words::limits_in(front);
    store::room_in(store, l)?;
    let m = store::finish_picture(store, c, l);
    let q = words::prev_in(front);
    words::put_idle(front, prev_after(q, c));
    Ok(replies::put_done(reply, Kind::Finish, m))
}

// Finish (C.5.2.3): refused by 4 with no current picture, then by 9.
pub(crate) fn finish(
    front: &mut [u32; FRONT],
    store: &mut [u32; Store::WORDS],
    reply: &mut [u8],
) -> Result<usize, Refusal>
    requires { Roomy reply.old }
    ensures { CallsStore (reply_to finish_kind) finish_of front store reply result }
{
    match words::now_in(front) {
        None => Err(Refusal::NoCurrent),
        Some(c) => finish_at(front, store, c, reply),
    }
}

// Whether drain and configure are refused by 9: a picture is current, so it must be stored, and the store is full.
fn is_stuck(front: &[u32; FRONT], store: &[u32; Store::WORDS]) -> bool
    ensures { (xs : List ℕ) → result ≡ (is_current (now_at front.now)
        && full (session_in (memory front.now xs store.now))) }
{
    let l = words::limits_in(front);
    words::is_busy(front) & store::room_in(store, l).is_err()
}

// A drain with no current picture: empties the store and writes the reply to a record of that kind.
fn drain_idle(
    front: &mut [u32; FRONT],
    store: &mut [u32; Store::WORDS],
    kind: Kind,
    reply: &mut [u8],
) -> usize
    requires { (now_at front.old ≡ None) × Roomy reply.old }
    ensures { Drains (reply_kind kind) front store reply result }
{
    let m = store::drain(store);
    let q = words::prev_in(front);
    words::put_idle(front, q);
    replies::put_done(reply, kind, m)
}

// A drain where c is the current picture: finishes it, empties the store and writes the reply to a record of that kind.
fn drain_current(
    front: &mut [u32; FRONT],
    store: &mut [u32; Store::WORDS],
    c: Current,
    kind: Kind,
    reply: &mut [u8],
) -> usize
    requires { (now_at front.old ≡ Some c) × (length (stored store.old) < 16) × Roomy reply.old }
    ensures { Drains (reply_kind kind) front store reply result }
{
    let l = words::limits_in(front);
    let m = store::finish_and_drain(store, c, l);
    let q = words::prev_in(front);
    words::put_idle(front, prev_after(q, c));
    replies::put_done(reply, kind, m)
}

// A drain that nothing refuses: finishes a current picture, empties the store and writes the reply to a record of that
// kind.
fn drain_as(
    front: &mut [u32; FRONT],
    store: &mut [u32; Store::WORDS],
    kind: Kind,
    reply: &mut [u8],
) -> usize
    requires { (is_current (now_at front.old) ≡ true → length (stored store.old) < 16)
        × Roomy reply.old }
    ensures { Drains (reply_kind kind) front store reply result }
{
    match words::now_in(front) {
        None => drain_idle(front, store, kind, reply),
        Some(c) => drain_current(front, store, c, kind, reply),
    }
}

// Drain: refused by 9. "Drain finishes a current picture, then empties."
pub(crate) fn drain(
    front: &mut [u32; FRONT],
    store: &mut [u32; Store::WORDS],
    reply: &mut [u8],
) -> Result<usize, Refusal>
    requires { Roomy reply.old }
    ensures { CallsStore (reply_to drain_kind) drain_of front store reply result }
{
    if is_stuck(front, store) {
        return Err(Refusal::StoreFull);
    }
    Ok(drain_as(front, store, Kind::Drain, reply))
}

// Configure: refused by 2, then by 9. "Configure drains under the old limits, then takes the new and forgets the
// previous Tid0 picture."
pub(crate) fn configure(
    front: &mut [u32; FRONT],
    store: &mut [u32; Store::WORDS],
    msg: &[u8],
    reply: &mut [u8],
) -> Result<usize, Refusal>
    requires { Roomy reply.old }
    ensures { CallsStore (reply_to configure_kind) (λ s. configure_of s (limits_of msg.now))
        front store reply result }
{
    let l = records::limits_of(msg);
    if !ranges::configure_ranges(l) {
        return Err(Refusal::BadLimits);
    }
    if is_stuck(front, store) {
        return Err(Refusal::StoreFull);
    }
    let len = drain_as(front, store, Kind::Configure, reply);
    words::put_idle(front, None);
    words::put_limits(front, ranges::taken_limits(l));
    Ok(len)
}

// Discard, which nothing refuses: "Discard throws away and releases the current picture first, then clears."
pub(crate) fn discard(
    front: &mut [u32; FRONT],
    store: &mut [u32; Store::WORDS],
    reply: &mut [u8],
) -> usize
    requires { Roomy reply.old }
    ensures { CallsStore (reply_to discard_kind) discard_of front store reply (Ok result) }
{
    let x = words::now_in(front);
    let q = words::prev_in(front);
    let m = store::discard(store, x);
    words::put_idle(front, q);
    replies::put_done(reply, Kind::Discard, m)
}

// End of sequence, which nothing refuses: the next begin is first after it.
pub(crate) fn end(front: &mut [u32; FRONT], reply: &mut [u8]) -> usize
    requires { Roomy reply.old }
    ensures { CallsFront (reply_to end_kind) end_of front reply (Ok result) }
{
    words::put_ended(front);
    replies::put_quiet(reply, Kind::End)
}

// Abandon where c is the current picture.
fn abandon_at(front: &mut [u32; FRONT], c: Current, reply: &mut [u8]) -> usize
    requires { (now_at front.old ≡ Some c) × Roomy reply.old }
    ensures { CallsFront (reply_to abandon_kind) abandon_of front reply (Ok result) }
{
    let m = store::abandon(c);
    let q = words::prev_in(front);
    words::put_idle(front, q);
    replies::put_done(reply, Kind::Abandon, m)
}

// Abandon: refused by 4 with no current picture. "Abandon throws away and releases the current picture; marks and
// outputs of its begin stay."
pub(crate) fn abandon(front: &mut [u32; FRONT], reply: &mut [u8]) -> Result<usize, Refusal>
    requires { Roomy reply.old }
    ensures { CallsFront (reply_to abandon_kind) abandon_of front reply result }
{
    match words::now_in(front) {
        None => Err(Refusal::NoCurrent),
        Some(c) => Ok(abandon_at(front, c, reply)),
    }
}
