// A begin record as the derivation takes it: its fields, their ranges, and the wishes of its entries.
ghost use Rattle.std.specs.Prelude.{◌≡◌, cond, ◌+◌, ◌*◌, ◌^◌, ◌≤◌, ◌<◌, min, ℤ, pos, Bool, List};
ghost use Rattle.paper.specs.Words.{all_b, table};
ghost use Rattle.paper.specs.Kinds.{entries_place, short_width};
ghost use Rattle.paper.specs.Records.{short_at, long_at};
ghost use Rattle.paper.specs.Ranges.{long_ok, falling, rising, begin_ranges};
ghost use Rattle.paper.specs.Sets.{wishes_of};
ghost use Rattle.session.specs.Target.{fields_with, begin_with, begin_at};
ghost use Rattle.paper.specs.declared.ShortEntry.{ShortEntry};
ghost use Rattle.session.specs.Runs.{Runs, falls_after, rises_after, falls, rises};
ghost use Rattle.session.specs.Parts.{shorts_at, longs_at, WantsAll, HoldsWishes};

use derivation::wishes::{long_wish, short_wish};
use derivation::{Outside, ranges};
use format::records::BeginFields;
use format::{kinds, records};
use paper::{ShortEntry, Surface, Wish};
use store::Store;

// The fields of a begin before its entries, with the surface that the caller chose, if one.
pub(crate) fn begin_fields(surface: Option<Surface>, msg: &[u8]) -> BeginFields
    ensures { result ≡ begin_at surface msg.now }
{
    let h = records::begin_fields(msg);
    BeginFields {
        surface: surface.unwrap_or(h.surface),
        ..h
    }
}

// The short-term entries of one sign: which entry may follow the delta in front of it, and which runs of entries are in
// range behind a delta.
trait Sign {
    ghost follows: { ℤ → ShortEntry → Bool };

    ghost in_range: { ℤ → List ShortEntry → Bool };

    fn may_follow(last: i32, e: ShortEntry) -> bool
        ensures { result ≡ follows last e };

    ghost runs: { Runs follows in_range };
}

// "Neg deltas −524,288 to −1, strictly falling", "Used bytes 0 or 1".
struct Falling;

impl Sign for Falling {
    ghost follows = { falls_after };

    ghost in_range = { falling };

    ghost runs = { falls };

    fn may_follow(last: i32, e: ShortEntry) -> bool {
        ranges::falling_ok(last, e)
    }
}

// "pos deltas 1 to 524,288, strictly rising", "Used bytes 0 or 1".
struct Rising;

impl Sign for Rising {
    ghost follows = { rises_after };

    ghost in_range = { rising };

    ghost runs = { rises };

    fn may_follow(last: i32, e: ShortEntry) -> bool {
        ranges::rising_ok(last, e)
    }
}

// Whether the n short-term entries from byte `at` on are in range as those of that sign.
fn shorts_all<S: Sign>(msg: &[u8], at: usize, n: usize) -> bool
    requires { (at < 1000) × (n ≤ 16) }
    ensures { result ≡ S.in_range (pos 0) (table (short_at msg.now at) n) }
{
    let mut last = 0;
    for i in 0..n {
        let e = records::short_entry(msg, at, i);
        if !S::may_follow(last, e) {
            return false;
        }
        last = e.delta;
    }
    true
}

// Whether the n long-term entries from byte `at` on are in range: "lt lsb below M", "spare flag bits 0". M is 2 to
// the power of k.
fn longs_all(msg: &[u8], k: u8, at: usize, n: usize) -> bool
    requires { (at < 1000) × (n ≤ 16) }
    ensures { result ≡ all_b (long_ok (2 ^ (min k 16))) (table (long_at msg.now at) n) }
{
    for i in 0..n {
        if !ranges::long_ok(k, records::long_entry(msg, at, i)) {
            return false;
        }
    }
    true
}

// Whether every field of a begin is within its range. If one is not, begin is refused by 5.
pub(crate) fn begin_ranges(msg: &[u8], h: BeginFields, k: u8) -> bool
    requires { h ≡ begin_with h.surface msg.now }
    ensures { result ≡ begin_ranges (2 ^ (min k 16)) (fields_with h.surface msg.now) }
{
    let neg = h.neg as usize;
    let pos = h.pos as usize;
    let lt = h.lt as usize;
    if !ranges::field_ranges(k, h.nal, h.tid, h.flags, h.lsb, neg + pos + lt) {
        return false;
    }
    let longs = longs_all(
        msg,
        k,
        kinds::ENTRIES_PLACE + kinds::SHORT_WIDTH * (neg + pos),
        lt,
    );
    longs
        & (shorts_all::<Falling>(msg, kinds::ENTRIES_PLACE, neg)
            & shorts_all::<Rising>(msg, kinds::ENTRIES_PLACE + kinds::SHORT_WIDTH * neg, pos))
}

// A wish is what one entry of a begin asks for. Writes the wishes of the n short-term entries to the first places, until
// the POC of one lies outside i32.
fn want_shorts(
    msg: &[u8],
    poc: i32,
    n: usize,
    wishes: &mut [Wish; Store::CAPACITY],
) -> Result<(), Outside>
    requires { n ≤ 16 }
    ensures { WantsAll (shorts_at poc msg.now entries_place n) 0 wishes.old result wishes.new }
{
    for i in 0..n {
        wishes[i] = short_wish(poc, records::short_entry(msg, kinds::ENTRIES_PLACE, i))?;
    }
    Ok(())
}

// Writes the wishes of the n long-term entries behind the `from` short-term ones, until the POC of one lies outside i32.
fn want_longs(
    msg: &[u8],
    k: u8,
    poc: i32,
    from: usize,
    n: usize,
    wishes: &mut [Wish; Store::CAPACITY],
) -> Result<(), Outside>
    requires { from + n ≤ 16 }
    ensures { WantsAll (longs_at (2 ^ (min k 16)) poc msg.now (entries_place + short_width * from) n)
        from wishes.old result wishes.new }
{
    let at = kinds::ENTRIES_PLACE + kinds::SHORT_WIDTH * from;
    for i in 0..n {
        wishes[from + i] = long_wish(k, poc, records::long_entry(msg, at, i))?;
    }
    Ok(())
}

// Writes the wishes of a begin, first the neg, then the pos, then the lt ones. If the POC of one lies outside i32, begin
// is refused by 6.
pub(crate) fn wishes(
    msg: &[u8],
    h: BeginFields,
    k: u8,
    poc: i32,
    wishes: &mut [Wish; Store::CAPACITY],
) -> Result<(), Outside>
    requires { (h ≡ begin_with h.surface msg.now) × (h.neg + h.pos + h.lt ≤ 16) }
    ensures { HoldsWishes (wishes_of (2 ^ (min k 16)) poc (fields_with h.surface msg.now))
        h.neg h.pos h.lt result wishes.new }
{
    let shorts = h.neg as usize + h.pos as usize;
    want_shorts(msg, poc, shorts, wishes)?;
    want_longs(msg, k, poc, shorts, h.lt as usize, wishes)
}
