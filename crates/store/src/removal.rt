// Pictures leave the store: the others move up, in store order (C.5.2.2, C.5.2.4).
ghost use Rattle.std.specs.Prelude.{◌≡◌, false, map, ◌+◌, ◌≤◌};
ghost use Rattle.paper.specs.Words.{keep};
ghost use Rattle.paper.specs.Output.{in_use};
ghost use Rattle.store.specs.Walks.{surface_of};
ghost use Rattle.store.specs.Places.{front};
ghost use Rattle.store.specs.Tails.{HoldsReleased, GoodMoved, Releases, Throws, unused};

use crate::pictures::is_marked;
use crate::{Moved, Released, Store};
use paper::Picture;

// A store, and the surfaces released so far.
#[derive(Clone, Copy)]
pub(crate) struct Freed {
    pub(crate) places: [Picture; Store::CAPACITY],
    pub(crate) len: usize,
    pub(crate) released: Released,
}

// Whether a picture waits or is marked.
fn is_used(p: Picture) -> bool
    ensures { result ≡ in_use p }
{
    p.waiting | is_marked(p.mark)
}

// The stored pictures but for those that neither wait nor are marked, whose surfaces are released.
pub(crate) fn remove_unused(s: Store) -> Freed
    requires { s.len ≤ 16 }
    ensures few { result.len ≤ s.len }
    ensures left { front result.places result.len ≡ keep in_use (front s.places s.len) }
    ensures freed { HoldsReleased result.released
        (map surface_of (keep (unused false) (front s.places s.len))) }
{
    let n = s.len;
    let mut places = s.places;
    let mut released = Released::none();
    let mut k: usize = 0;
    for i in 0..n {
        let p = places[i];
        if is_used(p) {
            places[k] = p;
            k += 1;
        } else {
            released.push(p.surface);
        }
    }
    Freed {
        places,
        len: k,
        released,
    }
}

// All that are stored leave, and their surfaces are released behind those that are.
pub(crate) fn release_all(m: Moved) -> Moved
    requires { GoodMoved m × (m.freed + m.len ≤ 17) }
    ensures { Releases m result }
{
    let mut r = m;
    let n = r.len;
    for i in 0..n {
        let k = r.freed;
        r.released[k] = r.places[i].surface;
        r.freed = k + 1;
    }
    r.len = 0;
    r
}

// The serials of the pictures that wait are thrown away, behind those that are.
pub(crate) fn throw_waiting(m: Moved) -> Moved
    requires { GoodMoved m × (m.dropped + m.len ≤ 17) }
    ensures { Throws m result }
{
    let mut r = m;
    let n = r.len;
    for i in 0..n {
        let p = r.places[i];
        if p.waiting {
            let k = r.dropped;
            r.thrown[k] = p.serial;
            r.dropped = k + 1;
        }
    }
    r
}
