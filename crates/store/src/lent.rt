// The forms by reference: searches over a lent run of picture records, and marks changed in the record where it stands.
// Each is equal to its form by value in `searches`, `marks` and `sets`; step 4 of begin goes through these.
ghost use Rattle.std.specs.Prelude.{◌≡◌, ◌+◌, ◌^◌, ◌≤◌, ◌<◌, min, set};
ghost use Rattle.paper.specs.Sets.{marked};
ghost use Rattle.store.specs.Walks.{any_at, low_at, short_at, passing, found_of, blank};
ghost use Rattle.store.specs.Runs.{member_for, filled, members_at, marking, changed, Settles};

use crate::Store;
use crate::marks::is_among;
use crate::pictures::{Sought, passes};
use crate::searches::{member_of, sought_for};
use crate::sets::Settled;
use paper::{Mark, Picture, Serial, Wish};

// The first picture of a lent run that is what the walk looks for.
pub(crate) fn first_in(ps: &[Picture], t: Sought) -> Option<Picture>
    ensures { result ≡ found_of (passing t) ps.now }
{
    for p in ps {
        if passes(t, *p) {
            return Some(*p);
        }
    }
    None
}

// The first picture of a lent run with any mark and this POC (8.3.2, a long-term picture with its MSB present).
pub fn find_ref_by_poc_in(ps: &[Picture], poc: i32) -> Option<Picture>
    ensures { result ≡ found_of (any_at poc) ps.now }
{
    first_in(ps, Sought::AnyAt(poc))
}

// The first picture of a lent run with any mark and a POC of these low k bits (8.3.2, a long-term picture without its
// MSB).
pub fn find_ref_by_poc_masked_in(ps: &[Picture], k: u8, low: i32) -> Option<Picture>
    ensures { result ≡ found_of (low_at (2 ^ (min k 16)) low) ps.now }
{
    first_in(ps, Sought::LowAt(k, low))
}

// The first short-term picture of a lent run of this POC (8.3.2).
pub fn find_short_term_ref_by_poc_in(ps: &[Picture], poc: i32) -> Option<Picture>
    ensures { result ≡ found_of (short_at poc) ps.now }
{
    first_in(ps, Sought::ShortAt(poc))
}

// What n entries from a place on ask for, each found in a lent run of pictures and written at its own place.
pub(crate) fn find_members_in(
    ps: &[Picture],
    long: bool,
    k: u8,
    wishes: &[Wish; Store::CAPACITY],
    from: usize,
    n: usize,
    found: &mut [Serial; Store::CAPACITY],
)
    requires { from + n ≤ 16 }
    ensures { found.new ≡ filled
        (member_for long k ps.now wishes.now) from n found.old }
{
    for i in 0..n {
        let at = from + i;
        found[at] = member_of(first_in(ps, sought_for(long, k, wishes[at])));
    }
}

// Sets the mark of a picture where it stands; all else stays.
pub fn set_mark(p: &mut Picture, m: Mark)
    ensures { p.new ≡ marked m p.old }
{
    p.mark = m;
}

// Of the first m pictures those among n members from a place on (`inside`), or those not among them, get a mark where
// they stand.
pub(crate) fn mark_where_in(
    ps: &mut [Picture; Store::CAPACITY],
    m: usize,
    xs: [Serial; Store::CAPACITY],
    from: usize,
    n: usize,
    inside: bool,
    mark: Mark,
)
    requires { (m ≤ 16) × (from + n ≤ 16) }
    ensures { ps.new ≡ changed blank (marking inside mark (members_at xs from n)) m ps.old }
{
    for p in &mut ps[..m] {
        if is_among(p.serial, xs, from, n) == inside {
            set_mark(p, mark);
        }
    }
}

// Step 4 of begin on the places of a store, lent to the searches and to the marks.
pub(crate) fn settle_in(
    places: [Picture; Store::CAPACITY],
    m: usize,
    k: u8,
    wishes: &[Wish; Store::CAPACITY],
    shorts: usize,
    longs: usize,
) -> Settled
    requires { (m ≤ 16) × (shorts + longs ≤ 16) }
    ensures { Settles k wishes.now shorts longs m places result }
{
    let mut ps = places;
    let mut found = [Serial(0); Store::CAPACITY];
    find_members_in(&ps[..m], true, k, wishes, shorts, longs, &mut found);
    mark_where_in(&mut ps, m, found, shorts, longs, true, Mark::LongTerm);
    find_members_in(&ps[..m], false, k, wishes, 0, shorts, &mut found);
    mark_where_in(&mut ps, m, found, 0, shorts + longs, false, Mark::Unmarked);
    Settled { places: ps, found }
}
