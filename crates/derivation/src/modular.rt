// M = 2^k, the remainder of a POC modulo M, and the range of an i32.
ghost use Rattle.std.specs.Prelude.{◌≡◌, cond, [], ◌∷◌, ◌^◌, min};
ghost use Rattle.paper.specs.Poc.{mod_z, in32};
ghost use Rattle.derivation.specs.Answers.{narrow_of, number_of_narrow, values_of_narrow};

use crate::{CAPACITY, Outside};

// The greatest k: "k 4 to 16".
pub const MOST_BITS: u8 = 16;

// k, or the greatest k where it is more.
pub fn taken_bits(k: u8) -> u8
    ensures { result ≡ min k 16 }
{
    k.min(MOST_BITS)
}

// A capacity as it is taken: "more than 16 is taken as 16".
pub fn taken_capacity(n: u8) -> u8
    ensures { result ≡ min n 16 }
{
    n.min(CAPACITY as u8)
}

// M = 2^k (MaxPicOrderCntLsb, 7.4.3.2.1), a k over 16 taken as 16.
pub fn modulus(k: u8) -> u32
    ensures { result ≡ 2 ^ (min k 16) }
{
    1 << u32::from(taken_bits(k))
}

// POC mod M by the mask M - 1: "The remainder of a negative POC is the low k bits, never negative."
pub fn low_bits(k: u8, poc: i32) -> u32
    ensures { result ≡ mod_z poc (2 ^ (min k 16)) }
{
    poc.cast_unsigned() & (modulus(k) - 1)
}

// The number as an i32, or that it lies outside.
pub fn narrowed(z: i64) -> Result<i32, Outside>
    ensures answer { result ≡ narrow_of z }
    ensures number { number_of_narrow result ≡ cond (in32 z) 0 6 }
    ensures values { number_of_narrow result ≡ 0 → values_of_narrow result ≡ z ∷ [] }
{
    i32::try_from(z).map_err(|_| Outside)
}
