// Marks of the stored pictures (8.3.2), by value: what the marks set where a picture stands are equal to.
ghost use Rattle.std.specs.Prelude.{◌≡◌, ◌+◌, ◌≤◌};
ghost use Rattle.paper.specs.Sets.{is_in};
ghost use Rattle.store.specs.Walks.{blank};
ghost use Rattle.store.specs.Runs.{members_at, marking, changed};

use crate::Store;
use crate::lent::mark_where_in;
use paper::{Mark, Picture, Serial};

// Whether a serial is among n of a run, from a place on.
pub(crate) fn is_among(x: Serial, xs: [Serial; Store::CAPACITY], from: usize, n: usize) -> bool
    requires { from + n ≤ 16 }
    ensures { result ≡ is_in x (members_at xs from n) }
{
    xs[from..from + n].contains(&x)
}

// The first m pictures, of which those among n members from a place on (`inside`), or those not among them, get a mark.
pub(crate) fn mark_where(
    places: [Picture; Store::CAPACITY],
    m: usize,
    xs: [Serial; Store::CAPACITY],
    from: usize,
    n: usize,
    inside: bool,
    mark: Mark,
) -> [Picture; Store::CAPACITY]
    requires { (m ≤ 16) × (from + n ≤ 16) }
    ensures { result ≡ changed blank (marking inside mark (members_at xs from n)) m places }
{
    let mut r = places;
    mark_where_in(&mut r, m, xs, from, n, inside, mark);
    r
}
