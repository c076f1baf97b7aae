// One line of the ledger: its tests and its change.
ghost use Rattle.std.specs.Prelude.{◌≡◌, not};
ghost use Rattle.paper.specs.Ledger.{waits_as, waits, lies, off};
ghost use Rattle.watch.specs.Walks.{asking, changing, waits_at, named};

use paper::{Line, Serial, Shown, Surface};

// What a walk over the lines asks for: one of this serial that waits; one that waits with this serial, surface and POC;
// one on this surface; one on this surface that waits; one of this serial; any.
#[derive(Clone, Copy)]
pub enum Ask {
    Waits(Serial),
    WaitsAs(Shown),
    Lies(Surface),
    WaitsAt(Surface),
    Named(Serial),
    Any,
}

// Whether the line has this serial.
fn is_named(e: Line, n: Serial) -> bool
    ensures { result ≡ named n e }
{
    n == e.serial
}

// Whether the line is on this surface.
fn lies_at(e: Line, x: Surface) -> bool
    ensures { result ≡ lies x.0 e }
{
    x == e.surface
}

// Whether the line waits and has this serial.
fn waits_for(e: Line, n: Serial) -> bool
    ensures { result ≡ waits n.0 e }
{
    e.wants & is_named(e, n)
}

// Whether the line waits on this surface.
fn waits_at(e: Line, x: Surface) -> bool
    ensures { result ≡ waits_at x e }
{
    e.wants & lies_at(e, x)
}

// Whether the line waits with this serial, surface and POC.
fn waits_as(e: Line, x: Shown) -> bool
    ensures { result ≡ waits_as x e }
{
    e.wants & (is_named(e, x.serial) & (lies_at(e, x.surface) & (x.poc == e.poc)))
}

// Whether the line is what a walk asks for.
pub(crate) fn asked(q: Ask, e: Line) -> bool
    ensures { result ≡ asking q e }
{
    match q {
        Ask::Waits(n) => waits_for(e, n),
        Ask::WaitsAs(x) => waits_as(e, x),
        Ask::Lies(x) => lies_at(e, x),
        Ask::WaitsAt(x) => waits_at(e, x),
        Ask::Named(n) => is_named(e, n),
        Ask::Any => true,
    }
}

// The line, no longer waiting if its serial is n.
fn turned_off(e: Line, n: Serial) -> Line
    ensures { result ≡ off n.0 e }
{
    Line {
        wants: e.wants & !is_named(e, n),
        ..e
    }
}

// The line, no longer waiting if it has this serial; the same line where there is none.
pub(crate) fn changed(e: Line, off: Option<Serial>) -> Line
    ensures { result ≡ changing off e }
{
    off.map_or(e, |n| turned_off(e, n))
}

// Whether the line is not on this surface: a release leaves it.
pub(crate) fn stays(e: Line, x: Surface) -> bool
    ensures { result ≡ not (lies x.0 e) }
{
    !lies_at(e, x)
}
