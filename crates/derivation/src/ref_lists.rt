// Reference lists (8.3.4): candidates, and places of them.
ghost use Rattle.std.specs.Prelude.{◌≡◌, Bool, true, cond, not, ◌&&◌, ℕ, ◌+◌, ◌-◌, ◌%◌, ◌<◌, ◌≤◌, min, max, length, get_or, ltb, leb};
ghost use Rattle.paper.specs.Words.{any_b, table};
ghost use Rattle.derivation.specs.Lists.{refs_in, no_list, HoldsList, CandidateCount, candidates_of};
ghost use Rattle.derivation.specs.Lists.{can_fill, place_of, built_of, swapped_at, place_in};

use crate::{CAPACITY, members};
use paper::Serial;

// The sizes of the sets that lists draw on, StCurrBefore, StCurrAfter and LtCurr. Their members lie one behind the
// other in a run of serial numbers.
#[derive(Clone, Copy)]
pub struct Refs {
    pub before: u8,
    pub after: u8,
    pub long: u8,
}

// A reference list.
// Kept: no heap (a rule of the project), so up to 16 serials in an array, with their number; `HoldsList` says which.
#[derive(Clone, Copy)]
pub struct RefList {
    pub items: [Serial; CAPACITY],
    pub len: usize,
}

impl Refs {
    // How many members the three sets have.
    fn member_count(self) -> usize
        ensures { result ≡ min (self.before + self.after + self.long) 16 }
    {
        (usize::from(self.before) + usize::from(self.after) + usize::from(self.long)).min(CAPACITY)
    }
}

// How many candidates a list has: the members of the three sets, and the current picture if it is one.
pub fn candidate_count(sets: &[u32; CAPACITY], refs: Refs, own: bool) -> usize
    ensures { CandidateCount (refs_in sets.now refs) own result }
{
    refs.member_count() + usize::from(own)
}

// Number 11: "max(active, candidates) exceeds 16 for a list that the slice type uses".
pub fn too_many(uses: bool, active: u8, n: usize) -> bool
    ensures { result ≡ (uses && ltb 16 (max active n)) }
{
    uses & (CAPACITY < n.max(usize::from(active)))
}

// Number 12: "an entry byte is not below the number of candidates".
pub fn bad_entry(entries: &[u8], n: usize) -> bool
    ensures { result ≡ any_b (λ (e : ℕ). leb n e) entries.now }
{
    entries.iter().any(|e| n <= usize::from(*e))
}

// Whether list 0 ends with the current picture: "List 0 with bit 2, no modify bit and n > a0".
pub fn ends_with_own(own: bool, modify: bool, active: u8, n: usize) -> bool
    ensures { result ≡ (own && not modify && ltb active n) }
{
    own & !modify & (usize::from(active) < n)
}

// Where the candidate at i of list 1 stands in the run: After before Before.
#[tactic(auto, unfolding(crate::specs::Lists::swapped_at))]
fn swapped(b: usize, a: usize, i: usize) -> usize
    requires { (b ≤ 16) × (a ≤ 16) }
    ensures { result ≡ swapped_at b a i }
{
    if i < a {
        return b + i;
    }
    if i < a + b {
        return i - a;
    }
    i
}

// What a list is made of: the sets, whether the current picture is a candidate (`own`), whether it is list 1 (`second`),
// and the current picture.
#[derive(Clone, Copy)]
struct Candidates<'a> {
    sets: &'a [u32; CAPACITY],
    refs: Refs,
    own: bool,
    second: bool,
    current: Serial,
    ghost sixteen: { length sets.now ≡ 16 },
}

impl Candidates<'_> {
    // Where the candidate at i stands in the run.
    fn place(&self, i: usize) -> usize
        ensures { let x = self.now in
            result ≡ place_in (min x.refs.before 16) (min x.refs.after (16 - x.refs.before)) x.second i }
    {
        if self.second {
            let b = usize::from(self.refs.before).min(CAPACITY);
            let a = usize::from(self.refs.after).min(CAPACITY - b);
            return swapped(b, a, i);
        }
        i
    }

    // The candidate at i; behind all of them stands the current picture.
    fn at(&self, i: usize) -> Serial
        ensures { let x = self.now in
            result ≡ get_or (candidates_of (refs_in x.sets.now x.refs) x.own x.second x.current) i x.current }
    {
        let place = self.place(i);
        if self.refs.member_count() <= place {
            return self.current;
        }
        members::member(self.sets, place)
    }

    // The places of a list: "With n candidates, place j is candidate j mod n; with the modify bit it is the candidate
    // at the entry byte".
    fn places(&self, n: usize, active: usize, modify: bool, entries: &[u8]) -> RefList
        requires { can_fill n active modify (length entries.now) ≡ true }
        ensures holds { let x = self.now in
            HoldsList result (table (place_of (candidates_of (refs_in x.sets.now x.refs) x.own x.second x.current)
            x.current modify entries.now n) active) }
        ensures len { result.len ≡ active }
    {
        let mut items = [Serial(0); CAPACITY];
        for j in 0..active {
            items[j] = self.at(which(modify, entries, j, n));
        }
        RefList { items, len: active }
    }
}

// Which candidate stands at place j: "place j is candidate j mod n; with the modify bit it is the candidate at the
// entry byte".
fn which(modify: bool, entries: &[u8], j: usize, n: usize) -> usize
    requires { (0 < n) × (modify ≡ true → j < length entries.now) }
    ensures { result ≡ cond modify (get_or entries.now j 0) (j % n) }
{
    if modify {
        return usize::from(entries[j]);
    }
    j % n
}

// A list with no place.
pub fn no_list() -> RefList
    ensures { result ≡ no_list }
{
    RefList {
        items: [Serial(0); CAPACITY],
        len: 0,
    }
}

// Whether n candidates fill a list: one at least, 1 to 16 places, and with the modify bit an entry byte for each place.
fn can_fill(n: usize, active: usize, modify: bool, bytes: usize) -> bool
    ensures { result ≡ can_fill n active modify bytes }
{
    (0 < n) & (1 <= active) & (active <= CAPACITY) & (!modify | (active <= bytes))
}

// A reference list (8.3.4): list 0, or list 1 (`second`); `last`: it has the current picture in its last active place.
// It has no place where the candidates cannot fill it.
pub fn build_ref_pic_list(
    sets: &[u32; CAPACITY],
    refs: Refs,
    c: Serial,
    own: bool,
    second: bool,
    last: bool,
    active: u8,
    modify: bool,
    entries: &[u8],
) -> RefList
    ensures { HoldsList result
        (built_of (refs_in sets.now refs) c own second last active modify entries.now) }
{
    let n = candidate_count(sets, refs, own);
    let active = usize::from(active);
    if !can_fill(n, active, modify, entries.len()) {
        return no_list();
    }
    let candidates = Candidates {
        sets,
        refs,
        own,
        second,
        current: c,
    };
    let mut l = candidates.places(n, active, modify, entries);
    if last {
        l.items[active - 1] = c;
    }
    l
}
