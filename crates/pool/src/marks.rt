// The words of a pool: how many surfaces it has, and of each surface a bit that says whether it is held and one that
// says whether a return is pending on it. Memory.antt names the same places.
ghost use Rattle.std.specs.Prelude.{◌≡◌, [], ◌∷◌, ◌-◌, ◌^◌, ◌≤◌, ℕ};
ghost use Rattle.paper.specs.Numbers.{bit};
ghost use Rattle.session.specs.View.{Memory};
ghost use Rattle.pool.specs.Pool.{lowest_free, surface_at};
ghost use Rattle.pool.specs.Memory.{pool_in, pool_memory};
ghost use Rattle.pool.specs.Marks.{surfaces_of, is_of};

use crate::{NO_SURFACE, WORDS};
use paper::Surface;

// The place of each word.
pub(crate) const SURFACES: usize = 0;

pub(crate) const HELD: usize = 1;

pub(crate) const PENDING: usize = 2;

// How many surfaces: a word over 64 is taken as 64.
pub(crate) fn surfaces_in(pool: &[u64; WORDS]) -> u32
    ensures { result ≡ surfaces_of pool.now }
{
    pool[SURFACES].min(64) as u32
}

// The bit of surface x, if it is one of n, and else none.
pub(crate) fn bit_of(n: u32, x: u32) -> u64
    requires { n ≤ 64 }
    ensures { (i : ℕ) → bit i result ≡ is_of n x i }
{
    if x < n { 1 << x } else { 0 }
}

// The bits of all surfaces below n.
fn all_below(n: u32) -> u64
    requires { n ≤ 64 }
    ensures { result ≡ 2 ^ n - 1 }
{
    if n < 64 { (1 << n) - 1 } else { u64::MAX }
}

// The lowest free surface, if one is free.
pub(crate) fn lowest_free(pool: &[u64; WORDS]) -> Option<Surface>
    ensures { (m : Memory)
        → result ≡ surface_at (lowest_free (pool_in (pool_memory pool.now m))) }
{
    let free = all_below(surfaces_in(pool)) & !(pool[HELD] | pool[PENDING]);
    let lowest = free.trailing_zeros();
    if lowest == NO_SURFACE {
        None
    } else {
        Some(Surface(lowest))
    }
}

// Makes the words a pool of that many surfaces, none of them held and nothing pending.
pub(crate) fn put_fresh(pool: &mut [u64; WORDS], surfaces: u32)
    ensures { pool.new ≡ surfaces ∷ 0 ∷ 0 ∷ [] }
{
    *pool = [u64::from(surfaces), 0, 0];
}
