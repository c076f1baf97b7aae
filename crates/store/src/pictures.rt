// One picture: its tests and its changes.
ghost use Rattle.std.specs.Prelude.{◌≡◌, cond, ◌+◌, ◌^◌, min, ltb, pos};
ghost use Rattle.paper.specs.Poc.{mod_z, eq_z};
ghost use Rattle.paper.specs.State.{is_marked, is_short_term, count_limit};
ghost use Rattle.paper.specs.Step.{held_by};
ghost use Rattle.paper.specs.Sets.{marked};
ghost use Rattle.paper.specs.Calls.{raised};
ghost use Rattle.paper.specs.Output.{quieted};
ghost use Rattle.store.specs.Walks.{any_at, low_at, short_at, passing, blank, change_by};

use derivation::modular::low_bits;
use paper::{Mark, Picture, Serial, Surface};

// Where a count stops rising.
const COUNT_LIMIT: u32 = 2147483647;

// What a walk over the stored pictures looks for: any mark and this POC; any mark and a POC of these low k bits; a
// short-term picture of this POC; one that holds this surface.
// Kept: which test it is hangs on the entry of a record, so it is a value and no closure.
#[derive(Clone, Copy)]
pub enum Sought {
    AnyAt(i32),
    LowAt(u8, i32),
    ShortAt(i32),
    HeldBy(Surface),
}

// Whether a mark is one for reference.
pub(crate) fn is_marked(m: Mark) -> bool
    ensures { result ≡ is_marked m }
{
    m != Mark::Unmarked
}

// Whether a mark is "used for short-term reference".
pub(crate) fn is_short_term(m: Mark) -> bool
    ensures { result ≡ is_short_term m }
{
    m == Mark::ShortTerm
}

// Whether two POCs are equal.
pub(crate) fn same_poc(a: i32, b: i32) -> bool
    ensures { result ≡ eq_z a b }
{
    a == b
}

// Whether the low k bits of a POC are these.
pub(crate) fn same_low(k: u8, poc: i32, low: i32) -> bool
    ensures { result ≡ eq_z (pos (mod_z poc (2 ^ (min k 16)))) low }
{
    let bits = low_bits(k, poc) as i32;
    same_poc(bits, low)
}

// Whether p has any mark and this POC.
fn is_any_at(p: Picture, poc: i32) -> bool
    ensures { result ≡ any_at poc p }
{
    is_marked(p.mark) & same_poc(p.poc, poc)
}

// Whether p has any mark and a POC of these low k bits.
fn is_low_at(p: Picture, k: u8, low: i32) -> bool
    ensures { result ≡ low_at (2 ^ (min k 16)) low p }
{
    is_marked(p.mark) & same_low(k, p.poc, low)
}

// Whether p is a short-term picture of this POC.
fn is_short_at(p: Picture, poc: i32) -> bool
    ensures { result ≡ short_at poc p }
{
    is_short_term(p.mark) & same_poc(p.poc, poc)
}

// Whether p holds the surface x.
fn is_held_by(p: Picture, x: Surface) -> bool
    ensures { result ≡ held_by x p }
{
    p.surface == x
}

// Whether p is what a walk looks for.
pub(crate) fn passes(t: Sought, p: Picture) -> bool
    ensures { result ≡ passing t p }
{
    match t {
        Sought::AnyAt(poc) => is_any_at(p, poc),
        Sought::LowAt(k, low) => is_low_at(p, k, low),
        Sought::ShortAt(poc) => is_short_at(p, poc),
        Sought::HeldBy(x) => is_held_by(p, x),
    }
}

// The picture with another mark.
pub(crate) fn with_mark(p: Picture, m: Mark) -> Picture
    ensures { result ≡ marked m p }
{
    Picture { mark: m, ..p }
}

// The next count: one more, stopping at 2,147,483,647.
pub(crate) fn next_count(n: u32) -> u32
    ensures { result ≡ cond (ltb n count_limit) (n + 1) count_limit }
{
    n.saturating_add(1).min(COUNT_LIMIT)
}

// What is done to each picture of a store that is read from its words: nothing; its count rises by 1; it loses its
// mark.
// Kept: which one it is hangs on the begun picture, so it is a value and no closure.
#[derive(Clone, Copy)]
pub enum Change {
    Nothing,
    Raise,
    Unmark,
}

// No picture: what stands in a place that is not used.
pub(crate) fn none() -> Picture
    ensures { result ≡ blank }
{
    Picture {
        serial: Serial(0),
        surface: Surface(0),
        poc: 0,
        mark: Mark::Unmarked,
        waiting: false,
        count: 0,
    }
}

// The picture, whose count has risen by 1 (finish).
fn raise(p: Picture) -> Picture
    ensures { result ≡ raised p }
{
    Picture {
        count: next_count(p.count),
        ..p
    }
}

// The picture after a change.
pub(crate) fn read_as(p: Picture, x: Change) -> Picture
    ensures { result ≡ change_by x p }
{
    match x {
        Change::Nothing => p,
        Change::Raise => raise(p),
        Change::Unmark => with_mark(p, Mark::Unmarked),
    }
}

// The picture, that no longer waits.
pub(crate) fn end_waiting(p: Picture) -> Picture
    ensures { result ≡ quieted p }
{
    Picture {
        waiting: false,
        ..p
    }
}
