// Picture order count (8.3.1).
ghost use Rattle.std.specs.Prelude.{◌≡◌, cond, ◌&&◌, [], ◌∷◌, ◌^◌, ◌≤◌, min, pos, ◌+ℤ◌, Some};
ghost use Rattle.paper.specs.Poc.{msb_of, poc_of, in32};
ghost use Rattle.derivation.specs.Answers.{poc_at, poc_answer, number_of_poc, values_of_poc};

use crate::{Outside, modular};
use paper::Tid0;

// MSB and POC of a picture.
#[derive(Clone, Copy, PartialEq, Eq)]
pub struct Poc {
    pub msb: i32,
    pub poc: i32,
}

// The exact MSB from the previous Tid0 picture: "lsb < q and q − lsb ≥ M/2 gives Q + M; lsb > q and lsb − q > M/2 gives
// Q − M; else Q".
fn msb_exact(m: u32, previous: Tid0, lsb: u16) -> i64
    requires { m ≤ 65536 }
    ensures { result ≡ msb_of m (Some previous) lsb }
{
    let half = m / 2;
    let q = previous.lsb;
    let wide = i64::from(previous.msb);
    if lsb < q && u32::from(q - lsb) >= half {
        return wide + i64::from(m);
    }
    if lsb > q && u32::from(lsb - q) > half {
        return wide - i64::from(m);
    }
    wide
}

// The exact MSB with the lsb, if an i32 holds the MSB and the sum: "POC = MSB + lsb".
fn with_lsb(msb: i64, lsb: u16) -> Result<Poc, Outside>
    ensures answer { result ≡ poc_at msb lsb }
    ensures number { number_of_poc result ≡ cond (in32 msb && in32 (msb +ℤ pos lsb)) 0 6 }
    ensures values { number_of_poc result ≡ 0 → values_of_poc result ≡ msb ∷ (msb +ℤ pos lsb) ∷ [] }
{
    let msb = modular::narrowed(msb)?;
    let poc = modular::narrowed(i64::from(msb) + i64::from(lsb))?;
    Ok(Poc { msb, poc })
}

// MSB and POC of a picture: "MSB 0 for .. no previous Tid0 picture", else from it.
#[tactic(auto, unfolding(paper::specs::Poc::msb_of))]
pub fn derive_poc(k: u8, prev: Option<Tid0>, lsb: u16) -> Result<Poc, Outside>
    ensures answer { result ≡ poc_answer (2 ^ (min k 16)) prev lsb }
    ensures number { number_of_poc result ≡ cond
        (in32 (msb_of (2 ^ (min k 16)) prev lsb) && in32 (poc_of (2 ^ (min k 16)) prev lsb)) 0 6 }
    ensures values { number_of_poc result ≡ 0
        → values_of_poc result ≡ msb_of (2 ^ (min k 16)) prev lsb ∷ poc_of (2 ^ (min k 16)) prev lsb ∷ [] }
{
    match prev {
        None => with_lsb(0, lsb),
        Some(previous) => with_lsb(msb_exact(modular::modulus(k), previous, lsb), lsb),
    }
}
