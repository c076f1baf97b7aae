// Searches among the stored pictures, in store order (8.3.2), by value: what the searches over a lent run of picture
// records are equal to.
ghost use Rattle.std.specs.Prelude.{◌≡◌, ◌+◌, ◌^◌, ◌≤◌, min, take};
ghost use Rattle.store.specs.Walks.{any_at, low_at, short_at, passing, found_of, member_of, sought_for};
ghost use Rattle.store.specs.Places.{stored_in};
ghost use Rattle.store.specs.Runs.{member_for, filled};

use crate::Store;
use crate::lent::{find_members_in, first_in};
use crate::pictures::Sought;
use paper::{Picture, Serial, Wish};

// How many places are used: a length over 16 counts as 16.
pub(crate) fn used_in(s: Store) -> usize
    ensures { result ≡ min s.len 16 }
{
    s.len.min(Store::CAPACITY)
}

// The first of n pictures that is what the walk looks for.
pub(crate) fn find_first(places: [Picture; Store::CAPACITY], n: usize, t: Sought) -> Option<Picture>
    requires { n ≤ 16 }
    ensures { result ≡ found_of (passing t) (take n places) }
{
    first_in(&places[..n], t)
}

// The first picture with any mark and this POC (8.3.2, a long-term picture with its MSB present).
pub fn find_ref_by_poc(s: Store, poc: i32) -> Option<Picture>
    ensures { result ≡ found_of (any_at poc) (stored_in s) }
{
    find_first(s.places, used_in(s), Sought::AnyAt(poc))
}

// The first picture with any mark and a POC of these low k bits (8.3.2, a long-term picture without its MSB).
pub fn find_ref_by_poc_masked(s: Store, k: u8, low: i32) -> Option<Picture>
    ensures { result ≡ found_of (low_at (2 ^ (min k 16)) low) (stored_in s) }
{
    find_first(s.places, used_in(s), Sought::LowAt(k, low))
}

// The first short-term picture of this POC (8.3.2).
pub fn find_short_term_ref_by_poc(s: Store, poc: i32) -> Option<Picture>
    ensures { result ≡ found_of (short_at poc) (stored_in s) }
{
    find_first(s.places, used_in(s), Sought::ShortAt(poc))
}

// What an entry asks for, a long-term or a short-term one.
pub(crate) fn sought_for(long: bool, k: u8, w: Wish) -> Sought
    ensures { result ≡ sought_for long k w }
{
    if !long {
        return Sought::ShortAt(w.poc);
    }
    if w.whole {
        Sought::AnyAt(w.poc)
    } else {
        Sought::LowAt(k, w.poc)
    }
}

// What a search gives a set: the serial of the picture found, or that of a missing one.
pub(crate) fn member_of(x: Option<Picture>) -> Serial
    ensures { result ≡ member_of x }
{
    match x {
        None => Serial(Store::MISSING),
        Some(p) => p.serial,
    }
}

// What n entries from a place on ask for, each found among the first m pictures and written at its own place.
pub(crate) fn find_members(
    places: [Picture; Store::CAPACITY],
    m: usize,
    long: bool,
    k: u8,
    wishes: &[Wish; Store::CAPACITY],
    from: usize,
    n: usize,
    found: [Serial; Store::CAPACITY],
) -> [Serial; Store::CAPACITY]
    requires { (m ≤ 16) × (from + n ≤ 16) }
    ensures { result ≡ filled
        (member_for long k (take m places) wishes.now) from n found }
{
    let mut r = found;
    find_members_in(&places[..m], long, k, wishes, from, n, &mut r);
    r
}
