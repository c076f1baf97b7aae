// Lists: its refusals in their order, and the two reference lists (8.3.4).
ghost use Rattle.std.specs.Prelude.{◌≡◌, [], cond, not, ◌&&◌, ◌||◌, List, ℕ, eqb, leb};
ghost use Rattle.paper.specs.declared.Serial.{Serial};
ghost use Rattle.paper.specs.Words.{any_b};
ghost use Rattle.paper.specs.Kinds.{lists_kind, reply_to};
ghost use Rattle.paper.specs.Records.{Slice, slice_of};
ghost use Rattle.paper.specs.Ranges.{lists_ranges};
ghost use Rattle.paper.specs.RefLists.{list0, list1};
ghost use Rattle.paper.specs.Step.{lists_at, lists_of};
ghost use Rattle.derivation.specs.Lists.{refs_in, HoldsList, built_of};
ghost use Rattle.paper.specs.State as P;
ghost use Rattle.paper.specs.Replies.{bytes_of};
ghost use Rattle.paper.specs.Replies.Reply.{Listed};
ghost use Rattle.session.specs.View.{memory, session_in};
ghost use Rattle.session.specs.Said.{Says, Gives, Roomy, WellFormed};
ghost use Rattle.format.specs.Reads.{ReadsAs};
ghost use Rattle.session.specs.Slices.{number_in, lists_number};

use crate::{FRONT, Refusal, replies, words};
use derivation::ref_lists;
use derivation::ref_lists::{RefList, Refs};
use format::records::{Ask, SliceFields};
use format::{kinds, records};
use paper::{Current, Serial};
use store::Store;
use wire::flag_bytes;

// Whether the count of a list is within its range: "Active counts 1 to 16 where the slice type uses the list, else 0
// with its modify bit 0."
fn active_ok(a: Ask) -> bool
    ensures { result ≡ cond a.uses (leb 1 a.active && leb a.active 16)
        (eqb a.active 0 && not a.modify) }
{
    if a.uses {
        (1 <= a.active) & (a.active as usize <= Store::CAPACITY)
    } else {
        (a.active == 0) & !a.modify
    }
}

// Whether every field of a lists record is within its range. If one is not, lists is refused by 5.
fn lists_ranges(h: SliceFields) -> bool
    ensures { (f : Slice) → ReadsAs h f → result ≡ lists_ranges f }
{
    (h.slice <= 2) & flag_bytes::spare::<3>(h.flags) & active_ok(h.ask0) & active_ok(h.ask1)
}

// How many entry bytes stand for a list: one for each place of it, where its modify bit is on.
fn entry_count(a: Ask) -> usize
    ensures { result ≡ cond a.modify a.active 0 }
{
    if a.modify { a.active as usize } else { 0 }
}

// Whether an entry byte of list 0 or of list 1 is not below n, the number of candidates. If one is, lists is refused
// by 12.
fn bad_entries(msg: &[u8], h: SliceFields, n: usize) -> bool
    requires { WellFormed 3 msg.now × ReadsAs h (slice_of msg.now) }
    ensures { result ≡ (any_b (λ (e : ℕ). leb n e) (slice_of msg.now).ask0.entries
        || any_b (λ (e : ℕ). leb n e) (slice_of msg.now).ask1.entries) }
{
    let a = kinds::ENTRY_BYTES_PLACE + entry_count(h.ask0);
    let b = a + entry_count(h.ask1);
    ref_lists::bad_entry(&msg[kinds::ENTRY_BYTES_PLACE..a], n) | ref_lists::bad_entry(&msg[a..b], n)
}

// The first refusal of "5, 10, 11 for list 0 then 1, 12 likewise" that applies, if one does.
fn judged(
    sets: &[u32; Store::CAPACITY],
    refs: Refs,
    msg: &[u8],
    h: SliceFields,
) -> Result<(), Refusal>
    requires { WellFormed 3 msg.now × ReadsAs h (slice_of msg.now) }
    ensures { (c : Serial) → number_in result
        ≡ lists_number (refs_in sets.now refs) c (slice_of msg.now) }
{
    if !lists_ranges(h) {
        return Err(Refusal::OutOfRange);
    }
    let x = h.ask0;
    let y = h.ask1;
    let n = ref_lists::candidate_count(sets, refs, h.own);
    if x.uses & (n == 0) {
        return Err(Refusal::NoCandidate);
    }
    if ref_lists::too_many(x.uses, x.active, n) | ref_lists::too_many(y.uses, y.active, n) {
        return Err(Refusal::TooMany);
    }
    if bad_entries(msg, h, n) {
        return Err(Refusal::BadEntry);
    }
    Ok(())
}

// List 0, or list 1 (`second`), as it is asked for, with its entry bytes; empty where the slice does not use it. `last`:
// it ends with the current picture.
fn asked_list(
    sets: &[u32; Store::CAPACITY],
    refs: Refs,
    c: Serial,
    own: bool,
    second: bool,
    last: bool,
    a: Ask,
    entries: &[u8],
) -> RefList
    ensures { HoldsList result (cond a.uses
        (built_of (refs_in sets.now refs) c own second last a.active a.modify entries.now) []) }
{
    if !a.uses {
        return ref_lists::no_list();
    }
    ref_lists::build_ref_pic_list(
        sets, refs, c, own, second, last, a.active, a.modify, entries,
    )
}

// Makes both lists of an accepted record and writes the reply.
fn listed(
    sets: &[u32; Store::CAPACITY],
    refs: Refs,
    c: Serial,
    msg: &[u8],
    h: SliceFields,
    reply: &mut [u8],
) -> usize
    requires { WellFormed 3 msg.now × ReadsAs h (slice_of msg.now)
        × (lists_number (refs_in sets.now refs) c (slice_of msg.now) ≡ 0) × Roomy reply.old }
    ensures { Says (bytes_of (Listed
        (list0 (refs_in sets.now refs) c (slice_of msg.now))
        (list1 (refs_in sets.now refs) c (slice_of msg.now))))
        reply.old result reply.new }
{
    let own = h.own;
    let n = ref_lists::candidate_count(sets, refs, own);
    let last = ref_lists::ends_with_own(own, h.ask0.modify, h.ask0.active, n);
    let a = kinds::ENTRY_BYTES_PLACE + entry_count(h.ask0);
    let b = a + entry_count(h.ask1);
    let entries0 = &msg[kinds::ENTRY_BYTES_PLACE..a];
    let x = asked_list(sets, refs, c, own, false, last, h.ask0, entries0);
    let y = asked_list(sets, refs, c, own, true, false, h.ask1, &msg[a..b]);
    replies::put_lists(reply, x, y)
}

// Lists where c is the current picture. The record is read once and handed on.
fn lists_at(
    sets: &[u32; Store::CAPACITY],
    refs: Refs,
    c: Current,
    msg: &[u8],
    reply: &mut [u8],
) -> Result<usize, Refusal>
    requires { WellFormed 3 msg.now × Roomy reply.old }
    ensures { (s : P.Session) → s.refs ≡ refs_in sets.now refs
        → Gives (reply_to lists_kind) s (lists_at s (slice_of msg.now) c) reply.old result reply.new }
{
    let h = records::slice_fields(msg);
    judged(sets, refs, msg, h)?;
    Ok(listed(sets, refs, c.serial, msg, h, reply))
}

// Lists (8.3.4): refused by 4 with no current picture. Nothing of the session changes.
pub(crate) fn lists(
    front: &[u32; FRONT],
    sets: &[u32; Store::CAPACITY],
    msg: &[u8],
    reply: &mut [u8],
) -> Result<usize, Refusal>
    requires { WellFormed 3 msg.now × Roomy reply.old }
    ensures { (t : List ℕ) → Gives (reply_to lists_kind) (session_in (memory front.now sets.now t))
        (lists_of (session_in (memory front.now sets.now t)) (slice_of msg.now))
        reply.old result reply.new }
{
    let refs = words::refs_in(front);
    match words::now_in(front) {
        None => Err(Refusal::NoCurrent),
        Some(c) => lists_at(sets, refs, c, msg, reply),
    }
}
