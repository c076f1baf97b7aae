// The sets of a picture (8.3.2): step 4 of begin.
ghost use Rattle.std.specs.Prelude.{◌≡◌, [], ◌++◌, ◌+◌, ◌^◌, ◌≤◌, min};
ghost use Rattle.store.specs.Places.{stored_in};
ghost use Rattle.store.specs.Runs.{wishes_in, Settles, GoodRuns, HoldsRuns, used_in, rest_in, used_at, unused_at};
ghost use Rattle.store.specs.Runs.{Derives};

use crate::lent::settle_in;
use crate::marks::mark_where;
use crate::searches::find_members;
use crate::{Derived, Run, Sizes, Store};
use derivation::CAPACITY;
use paper::{Mark, Picture, Serial, Wish};

// The places of a store after step 4, and what each entry found: neg, pos and lt ones, one behind the other.
#[derive(Clone, Copy)]
pub struct Settled {
    pub places: [Picture; Store::CAPACITY],
    pub found: [Serial; Store::CAPACITY],
}

// Two runs of members: one of the used entries, one of the others.
#[derive(Clone, Copy)]
pub struct Runs {
    pub used: Run<Serial, CAPACITY>,
    pub rest: Run<Serial, CAPACITY>,
}

// Step 4 of begin on the first m places: what the long-term entries ask for is found, and those found become long-term;
// then what the short-term ones ask for is found; what is in no set loses its mark. By value: what `settle_in` is equal
// to.
pub(crate) fn settle(
    places: [Picture; Store::CAPACITY],
    m: usize,
    k: u8,
    wishes: &[Wish; Store::CAPACITY],
    shorts: usize,
    longs: usize,
) -> Settled
    requires { (m ≤ 16) × (shorts + longs ≤ 16) }
    ensures { Settles k wishes.now shorts longs m places result }
{
    let none = [Serial(0); Store::CAPACITY];
    let f = find_members(places, m, true, k, wishes, shorts, longs, none);
    let ps = mark_where(places, m, f, shorts, longs, true, Mark::LongTerm);
    let found = find_members(ps, m, false, k, wishes, 0, shorts, f);
    let qs = mark_where(ps, m, found, 0, shorts + longs, false, Mark::Unmarked);
    Settled { places: qs, found }
}

// No member in either run.
fn no_runs() -> Runs
    ensures { HoldsRuns result [] [] }
{
    Runs {
        used: Run::of(Serial(0)),
        rest: Run::of(Serial(0)),
    }
}

// What n entries from a place on found joins the two runs.
fn split(
    found: [Serial; Store::CAPACITY],
    wishes: &[Wish; Store::CAPACITY],
    from: usize,
    n: usize,
    x: Runs,
) -> Runs
    requires { GoodRuns x × (from + n ≤ 16) × (x.used.len + x.rest.len + n ≤ 16) }
    ensures few { (result.used.len + result.rest.len ≡ x.used.len + x.rest.len + n) × (x.used.len ≤ result.used.len)
        × (x.rest.len ≤ result.rest.len) }
    ensures holds { HoldsRuns result (used_in x ++ used_at found wishes.now from n)
        (rest_in x ++ unused_at found wishes.now from n) }
{
    let mut r = x;
    for i in 0..n {
        let at = from + i;
        let y = found[at];
        if wishes[at].used {
            r.used.push(y);
        } else {
            r.rest.push(y);
        }
    }
    r
}

// Step 4 of begin (8.3.2): the marks, and the sets in two runs. The wishes are neg, pos and lt ones, one behind the
// other.
pub(crate) fn derive_and_mark_rps(
    s: Store,
    k: u8,
    wishes: &[Wish; Store::CAPACITY],
    neg: usize,
    pos: usize,
    lt: usize,
) -> Derived
    requires { (s.len ≤ 16) × (neg + pos + lt ≤ 16) }
    ensures { Derives (2 ^ (min k 16)) (stored_in s)
        (wishes_in wishes.now neg pos lt) result }
{
    let n = s.len;
    let t = settle_in(s.places, n, k, wishes, neg + pos, lt);
    let found = t.found;
    let x = split(found, wishes, 0, neg, no_runs());
    let y = split(found, wishes, neg, pos, x);
    let z = split(found, wishes, neg + pos, lt, y);
    let left = t.places;
    let first = z.used.items;
    let second = z.rest.items;
    let sizes = Sizes {
        before: x.used.len,
        after: y.used.len - x.used.len,
        long: z.used.len - y.used.len,
        foll: y.rest.len,
        lt_foll: z.rest.len - y.rest.len,
    };
    let store = Store {
        places: left,
        len: n,
    };
    Derived {
        store,
        first,
        second,
        sizes,
    }
}
