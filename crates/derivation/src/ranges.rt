// "Ranges", and the ranges of number 2.
ghost use Rattle.std.specs.Prelude.{◌≡◌, ◌&&◌, ◌^◌, min, ltb, pos, negsuc};
ghost use Rattle.std.specs.Int.Signed.{lt_z, le_z};
ghost use Rattle.paper.specs.State.{taken16};
ghost use Rattle.paper.specs.Ranges.{configure_ranges, long_ok};
ghost use Rattle.derivation.specs.FieldRanges.{field_ranges};

use crate::{CAPACITY, modular, nal};
use paper::{Limits, LongEntry, ShortEntry};
use wire::flag_bytes;

// The limits as they are taken: "more than 16 is taken as 16".
pub fn taken_limits(l: Limits) -> Limits
    ensures { result ≡ taken16 l }
{
    Limits {
        k: modular::taken_bits(l.k),
        capacity: modular::taken_capacity(l.capacity),
        ..l
    }
}

// Not number 2: "k 4 to 16, capacity at least 1, buffering 1 to the taken capacity, reorder below buffering".
#[tactic(auto, unfolding(paper::specs::Ranges::configure_ranges))]
pub fn configure_ranges(l: Limits) -> bool
    ensures { result ≡ configure_ranges l }
{
    (4 <= l.k)
        & (l.k <= modular::MOST_BITS)
        & (1 <= l.capacity)
        & (1 <= l.buffering)
        & (l.buffering <= modular::taken_capacity(l.capacity))
        & (l.reorder < l.buffering)
}

// Whether a begin record's fields, with n entries behind them, are in range: "Temporal id 0 to 6, and 0 for types 16 to
// 21", "neg + pos + lt at most 16", "Types 19 and 20: lsb and counts 0".
#[tactic(auto, unfolding(crate::specs::FieldRanges::field_ranges))]
pub fn field_ranges(k: u8, t: u8, tid: u8, flags: u8, lsb: u16, n: usize) -> bool
    ensures { result ≡ field_ranges (2 ^ (min k 16)) t tid flags lsb n }
{
    let layer = !nal::is_irap(t) | (tid == 0);
    let start = !nal::is_idr(t) | ((lsb == 0) & (n == 0));
    nal::is_taken(t)
        & (tid <= 6)
        & layer
        & flag_bytes::spare::<2>(flags)
        & (u32::from(lsb) < modular::modulus(k))
        & (n <= CAPACITY)
        & start
}

// Kept: this and `rising_ok` as one function would hold both tests and a flag, and be no plainer.
// Whether a neg entry may follow the delta `prev`: "Neg deltas −524,288 to −1, strictly falling", "Used bytes 0 or 1".
pub fn falling_ok(prev: i32, e: ShortEntry) -> bool
    ensures { result ≡ (le_z (negsuc 524287) e.delta && lt_z e.delta prev && ltb e.used 2) }
{
    (-524288 <= e.delta) & (e.delta < prev) & (e.used < 2)
}

// Whether a pos entry may follow the delta `prev`: "pos deltas 1 to 524,288, strictly rising", "Used bytes 0 or 1".
pub fn rising_ok(prev: i32, e: ShortEntry) -> bool
    ensures { result ≡ (le_z e.delta (pos 524288) && lt_z prev e.delta && ltb e.used 2) }
{
    (e.delta <= 524288) & (prev < e.delta) & (e.used < 2)
}

// Whether an lt entry is in range: "lt lsb below M = 2^k", "spare flag bits 0".
pub fn long_ok(k: u8, e: LongEntry) -> bool
    ensures { result ≡ long_ok (2 ^ (min k 16)) e }
{
    (u32::from(e.lsb) < modular::modulus(k)) & flag_bytes::spare::<2>(e.flags)
}
