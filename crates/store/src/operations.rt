// Step 5 of begin, finish, drain, discard and what abandon drops: whole operations on a store by value, each with its
// tail.
ghost use Rattle.std.specs.Prelude.{◌≡◌, true, false, [], ◌∷◌, ◌++◌, ◌+◌, ◌≤◌, min};
ghost use Rattle.paper.specs.Output.{and_then, hand_while, due, removed, emptied, cleared, before_decoding};
ghost use Rattle.paper.specs.Calls.{stored as storedBy, dropped, discarded};
ghost use Rattle.store.specs.Places.{front};
ghost use Rattle.store.specs.Tails.{HoldsMoved, HoldsTail, GoodMoved, GoodReleased, started_in, moved_by, Follows};

use crate::bumping::{Rule, bump_as_needed, find_lowest_poc_for_bumping, is_due, latency_of};
use crate::removal::{release_all, remove_unused, throw_waiting};
use crate::{Handed, Moved, Released, Store, Thrown};
use paper::{Current, Limits, Mark, Picture};

// The stored pictures, and the current one behind them: short-term, count 0, waiting if its output flag is 1 (C.5.2.3).
// Where every place is used it takes the last one.
fn store_picture(s: Store, c: Current) -> Store
    ensures { (result.len ≡ min s.len 15 + 1)
        × (front result.places result.len ≡ front s.places (min s.len 15) ++ (storedBy c ∷ [])) }
{
    let mut places = s.places;
    let p = Picture {
        serial: c.serial,
        surface: c.surface,
        poc: c.poc,
        mark: Mark::ShortTerm,
        waiting: c.output,
        count: 0,
    };
    let at = s.len.min(Store::CAPACITY - 1);
    places[at] = p;
    Store {
        places,
        len: at + 1,
    }
}

// A store of which nothing has gone but these surfaces.
pub(crate) fn untouched(places: [Picture; Store::CAPACITY], len: usize, x: Released) -> Moved
    requires { GoodReleased x × (len ≤ 16) }
    ensures { HoldsMoved result (started_in places len x) }
{
    Moved::of(places, len, Handed::none(), Thrown::none(), x)
}

// A store of which nothing has gone.
pub(crate) fn start(s: Store) -> Moved
    requires { s.len ≤ 16 }
    ensures { HoldsMoved result
        (record { pics = front s.places s.len; tail = record { handed = []; thrown = []; released = [] } }) }
{
    untouched(s.places, s.len, Released::none())
}

// All that wait are handed out, each leaving even if marked; then those that are left leave, behind those released so
// far.
fn empty_out(s: Store, x: Released) -> Moved
    requires { GoodReleased x × (s.len ≤ 16) × (x.len + s.len ≤ 17) }
    ensures { HoldsMoved result (and_then (started_in s.places s.len x) emptied) }
{
    let places = s.places;
    let n = s.len;
    let c = find_lowest_poc_for_bumping(places, n, latency_of(Rule::All));
    release_all(bump_as_needed(places, n, x, Rule::All, c))
}

// The store is cleared: those that wait are thrown away, all are released, behind what the tail has so far.
fn clear(m: Moved) -> Moved
    requires { GoodMoved m × (m.dropped ≤ 1) × (m.freed ≤ 1) }
    ensures { HoldsMoved result (and_then (moved_by m) cleared) }
{
    release_all(throw_waiting(m))
}

// The unused pictures are removed and others handed out while due.
fn make_room(s: Store, l: Limits) -> Moved
    requires { s.len ≤ 16 }
    ensures { HoldsMoved result (and_then (removed (front s.places s.len)) (hand_while (due true l))) }
{
    let f = remove_unused(s);
    let places = f.places;
    let n = f.len;
    let freed = f.released;
    let rule = Rule::Due(l, true);
    let c = find_lowest_poc_for_bumping(places, n, latency_of(rule));
    if is_due(rule, c, n) {
        bump_as_needed(places, n, freed, rule, c)
    } else {
        untouched(places, n, freed)
    }
}

// Step 5 of begin (C.5.2.2): a picture that starts over clears or empties the store; before any other the unused
// pictures are removed and others handed out while due.
pub(crate) fn update_dpb_before_decoding(s: Store, starts: bool, no_prior: bool, l: Limits) -> Moved
    requires { s.len ≤ 16 }
    ensures { HoldsMoved result (before_decoding starts no_prior l (front s.places s.len)) }
{
    if !starts {
        return make_room(s, l);
    }
    if no_prior {
        clear(start(s))
    } else {
        empty_out(s, Released::none())
    }
}

// Finish (C.5.2.3), where the counts have risen: the picture is stored, and others are handed out while due, without
// the buffering test.
pub(crate) fn finish_picture(s: Store, c: Current, l: Limits) -> Moved
    requires { s.len ≤ 16 }
    ensures { HoldsMoved result
        (hand_while (due false l) (front s.places (min s.len 15) ++ (storedBy c ∷ []))) }
{
    let t = store_picture(s, c);
    let places = t.places;
    let n = t.len;
    let rule = Rule::Due(l, false);
    let f = find_lowest_poc_for_bumping(places, n, latency_of(rule));
    bump_as_needed(places, n, Released::none(), rule, f)
}

// What was handed out before stands in front of what is handed out then.
fn after(x: Moved, y: Moved) -> Moved
    requires { GoodMoved x × GoodMoved y × (x.shown + y.shown ≤ 16) }
    ensures { Follows x y result }
{
    let mut r = y;
    let k = x.shown;
    let n = y.shown;
    let mut handed = x.handed;
    handed[k..k + n].copy_from_slice(&y.handed[..n]);
    r.handed = handed;
    r.shown = k + n;
    r
}

// A current picture is finished, then the store is emptied.
pub(crate) fn finish_and_drain(s: Store, c: Current, l: Limits) -> Moved
    requires { s.len ≤ 16 }
    ensures { HoldsMoved result
        (and_then (hand_while (due false l) (front s.places (min s.len 15) ++ (storedBy c ∷ []))) emptied) }
{
    let m = finish_picture(s, c, l);
    let left = m.places;
    let items = m.released;
    let released = Released {
        items,
        len: m.freed,
    };
    let rest = Store {
        places: left,
        len: m.len,
    };
    after(m, empty_out(rest, released))
}

// Drain, with no current picture: the store is emptied.
pub(crate) fn drain(s: Store) -> Moved
    requires { s.len ≤ 16 }
    ensures { HoldsMoved result (emptied (front s.places s.len)) }
{
    empty_out(s, Released::none())
}

// The current picture is thrown away, if it was to be handed out, and released; the store stays.
fn drop_current(s: Store, c: Current) -> Moved
    requires { s.len ≤ 16 }
    ensures { HoldsMoved result (record { pics = front s.places s.len; tail = dropped c }) }
{
    let mut m = start(s);
    m.released[0] = c.surface;
    m.freed = 1;
    if c.output {
        m.thrown[0] = c.serial;
        m.dropped = 1;
    }
    m
}

// Abandon: what it drops, the tail alone.
pub fn abandon(c: Current) -> Moved
    ensures { HoldsTail result (dropped c) }
{
    drop_current(Store::empty(), c)
}

// Discard: the current picture is thrown away and released first, then the store is cleared.
pub(crate) fn discard(s: Store, x: Option<Current>) -> Moved
    requires { s.len ≤ 16 }
    ensures { HoldsMoved result (discarded (front s.places s.len) x) }
{
    match x {
        None => clear(start(s)),
        Some(c) => clear(drop_current(s, c)),
    }
}
