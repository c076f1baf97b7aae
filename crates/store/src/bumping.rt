// Handing out (C.5.2.2 to C.5.2.4).
ghost use Rattle.std.specs.Prelude.{◌≡◌, not, ◌||◌, ◌+◌, ◌-◌, ◌≤◌, ◌<◌};
ghost use Rattle.std.specs.Int.Signed.{lt_z};
ghost use Rattle.paper.specs.Output.{and_then, shown};
ghost use Rattle.paper.specs.State.{is_marked};
ghost use Rattle.store.specs.Tails.{GoodReleased, started_in, HoldsMoved};
ghost use Rattle.store.specs.Places.{front, without_at};
ghost use Rattle.store.specs.OneWalk.{lower_by};
ghost use Rattle.store.specs.Bumps.{Scans, nothing_seen, seen_by, due_by, due_scan, due_now, always_by};
ghost use Rattle.store.specs.Bumps.{latency_by, turns_by};

use crate::pictures::{end_waiting, is_marked};
use crate::{Handed, Moved, Released, Store, Thrown};
use paper::{Limits, Picture, Shown};

// The lowest waiting picture: its place and its POC, of two with one POC the earlier stored.
#[derive(Clone, Copy, PartialEq, Eq)]
pub struct Lowest {
    pub at: usize,
    pub poc: i32,
}

// What one walk over the pictures finds: how many wait, whether one of them is late, and the lowest.
#[derive(Clone, Copy)]
pub struct Scan {
    pub waiting: usize,
    pub late: bool,
    pub lowest: Option<Lowest>,
}

// How long pictures are handed out: while one waits, each leaving even if marked; or while one is due, with the
// buffering test or without it.
// Kept: two rules with names of their own; as an `Option` neither would say what it is.
#[derive(Clone, Copy)]
pub enum Rule {
    All,
    Due(Limits, bool),
}

// Nothing seen yet.
fn nothing_seen() -> Scan
    ensures { result ≡ nothing_seen }
{
    Scan {
        waiting: 0,
        late: false,
        lowest: None,
    }
}

// Whether a POC is lower than another.
fn is_lower(a: i32, b: i32) -> bool
    ensures { result ≡ lt_z a b }
{
    a < b
}

// The lowest, with one more at place i.
fn lower(x: Option<Lowest>, at: usize, poc: i32) -> Option<Lowest>
    ensures { result ≡ lower_by x at poc }
{
    match x {
        Some(low) if !is_lower(poc, low.poc) => x,
        _ => Some(Lowest { at, poc }),
    }
}

// A picture more, at place i.
fn seen(c: Scan, i: usize, p: Picture, latency: u32) -> Scan
    requires { c.waiting < 16 }
    ensures { result ≡ seen_by c i p latency }
{
    if !p.waiting {
        return c;
    }
    Scan {
        waiting: c.waiting + 1,
        late: c.late | (latency <= p.count),
        lowest: lower(c.lowest, i, p.poc),
    }
}

// The waiting picture with the lowest POC, the earlier stored one on a tie, and what the tests of due ask for, of the
// first n.
pub(crate) fn find_lowest_poc_for_bumping(
    places: [Picture; Store::CAPACITY],
    n: usize,
    latency: u32,
) -> Scan
    requires { n ≤ 16 }
    ensures { Scans places n latency result }
{
    let mut c = nothing_seen();
    for i in 0..n {
        c = seen(c, i, places[i], latency);
    }
    c
}

// Whether a picture is due without the buffering test: more wait than may, or one is late (C.5.2.3).
fn needs_additional_bumping(c: Scan, l: Limits) -> bool
    ensures { result ≡ due_by l c.waiting c.late }
{
    let over = (l.reorder as usize) < c.waiting;
    over | ((l.latency != 0) & c.late)
}

// Whether a picture is to be handed out, if one waits: by the rule's tests, with the buffering test where it asks for
// it (C.5.2.2).
fn needs_bumping(rule: Rule, c: Scan, stored: usize) -> bool
    ensures { result ≡ due_scan rule c stored }
{
    match rule {
        Rule::All => true,
        Rule::Due(l, buffered) => {
            let full = (l.buffering as usize) <= stored;
            needs_additional_bumping(c, l) | (buffered & full)
        }
    }
}

// Whether a picture is to be handed out: one waits and is due.
pub(crate) fn is_due(rule: Rule, c: Scan, stored: usize) -> bool
    ensures { result ≡ due_now rule c stored }
{
    (0 < c.waiting) & needs_bumping(rule, c, stored)
}

// Whether a picture that is handed out leaves even if marked.
fn leaves_always(rule: Rule) -> bool
    ensures { result ≡ always_by rule }
{
    match rule {
        Rule::All => true,
        Rule::Due(l, buffered) => false,
    }
}

// The latency by which a picture is late.
pub(crate) fn latency_of(rule: Rule) -> u32
    ensures { result ≡ latency_by rule }
{
    match rule {
        Rule::All => 0,
        Rule::Due(l, buffered) => l.latency as u32,
    }
}

// Whether a picture that is handed out leaves: always, or if it is unmarked.
fn leaves(rule: Rule, p: Picture) -> bool
    ensures { result ≡ (always_by rule || not (is_marked p.mark)) }
{
    leaves_always(rule) | !is_marked(p.mark)
}

// What the tail tells of a picture handed out.
fn shown_of(p: Picture) -> Shown
    ensures { result ≡ shown p }
{
    Shown {
        serial: p.serial,
        surface: p.surface,
        poc: p.poc,
    }
}

// The first n pictures without the one at a place: those behind it move up.
fn remove(ps: [Picture; Store::CAPACITY], n: usize, at: usize) -> [Picture; Store::CAPACITY]
    requires { (n ≤ 16) × (at < n) }
    ensures { front result (n - 1) ≡ without_at at (front ps n) }
{
    let mut places = ps;
    places.copy_within(at + 1..n, at);
    places
}

// Pictures are handed out by a rule while one waits and is due, from what a walk over the first n found on ("bumping",
// C.5.2.4): each at the place that the walk found, where it leaves, or stays and no longer waits. As many turns as are
// stored are enough, since a turn hands one out or is the last (C.5.2.2, C.5.2.3). There is another walk only where
// another may be due: one fewer waits, and none is late that was not.
pub(crate) fn bump_as_needed(
    ps: [Picture; Store::CAPACITY],
    n: usize,
    x: Released,
    rule: Rule,
    first: Scan,
) -> Moved
    requires { GoodReleased x × (n ≤ 16) × (x.len + n ≤ 17) × Scans ps n (latency_by rule) first }
    ensures { HoldsMoved result (and_then (started_in ps n x) (turns_by rule)) }
{
    let mut places = ps;
    let mut len = n;
    let mut handed = Handed::none();
    let mut released = x;
    let latency = latency_of(rule);
    let mut c = first;
    for _ in 0..n {
        let Some(low) = c.lowest else {
            break;
        };
        if !needs_bumping(rule, c, len) {
            break;
        }
        let at = low.at;
        let p = places[at];
        handed.push(shown_of(p));
        if leaves(rule, p) {
            released.push(p.surface);
            places = remove(places, len, at);
            len -= 1;
        } else {
            places[at] = end_waiting(p);
        }
        c.waiting -= 1;
        if !is_due(rule, c, len) {
            break;
        }
        c = find_lowest_poc_for_bumping(places, len, latency);
    }
    Moved::of(places, len, handed, Thrown::none(), released)
}
