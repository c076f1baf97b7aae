// The POCs that the entries of a begin record ask for (8.3.2).
ghost use Rattle.std.specs.Prelude.{◌≡◌, cond, [], ◌∷◌, ◌^◌, min};
ghost use Rattle.paper.specs.Poc.{in32};
ghost use Rattle.paper.specs.Sets.{short_wish, long_wish, long_poc, wish_in32};
ghost use Rattle.derivation.specs.Answers.{wanted_of, wish_of, number_of_wanted, values_of_wanted};

use crate::{Outside, modular};
use paper::{LongEntry, ShortEntry, Wish};
use wire::flag_bytes;

// The wish for an exact POC, if an i32 holds it.
fn wish_at(z: i64, used: bool, whole: bool) -> Result<Wish, Outside>
    ensures answer { result ≡ wanted_of (wish_of z used whole) }
    ensures number { number_of_wanted result ≡ cond (in32 z) 0 6 }
    ensures values { number_of_wanted result ≡ 0 → values_of_wanted result ≡ wish_of z used whole ∷ [] }
{
    let poc = modular::narrowed(z)?;
    Ok(Wish { poc, used, whole })
}

// What a short-term entry asks for: "Short-term POCs are POC + delta".
pub fn short_wish(poc: i32, e: ShortEntry) -> Result<Wish, Outside>
    ensures answer { result ≡ wanted_of (short_wish poc e) }
    ensures number { number_of_wanted result ≡ cond (wish_in32 (short_wish poc e)) 0 6 }
    ensures values { number_of_wanted result ≡ 0 → values_of_wanted result ≡ short_wish poc e ∷ [] }
{
    wish_at(i64::from(poc) + i64::from(e.delta), e.used == 1, true)
}

// A long-term POC with its MSB present: "lt lsb + POC − cycle·M − (POC mod M)".
fn long_exact(k: u8, poc: i32, lsb: u16, cycle: u32) -> i64
    ensures { result ≡ long_poc (2 ^ (min k 16)) poc lsb cycle }
{
    let turns = u64::from(cycle) * u64::from(modular::modulus(k));
    let back = turns + u64::from(modular::low_bits(k, poc));
    i64::from(lsb) + i64::from(poc) - back as i64
}

// What a long-term entry asks for: "lt lsb, and with msb present" the exact POC.
pub fn long_wish(k: u8, poc: i32, e: LongEntry) -> Result<Wish, Outside>
    ensures answer { result ≡ wanted_of (long_wish (2 ^ (min k 16)) poc e) }
    ensures number { number_of_wanted result ≡ cond (wish_in32 (long_wish (2 ^ (min k 16)) poc e)) 0 6 }
    ensures values { number_of_wanted result ≡ 0 → values_of_wanted result ≡ long_wish (2 ^ (min k 16)) poc e ∷ [] }
{
    let used = flag_bytes::bit::<0>(e.flags);
    if flag_bytes::bit::<1>(e.flags) {
        return wish_at(long_exact(k, poc, e.lsb, e.cycle), used, true);
    }
    wish_at(i64::from(e.lsb), used, false)
}
