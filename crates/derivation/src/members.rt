// The run of the sets that lists draw on. It lies in lent words; these functions read and write it
// as serials.
ghost use Rattle.std.specs.Prelude.{◌≡◌, ℕ, ◌<◌, ◌≤◌, length, get_or};
ghost use Rattle.derivation.specs.Lists.{serial_at, serials_in, members_of};

use crate::CAPACITY;
use paper::Serial;

// The member at a place of the run.
pub(crate) fn member(sets: &[u32; CAPACITY], i: usize) -> Serial
    requires { i < 16 }
    ensures { result ≡ serial_at sets.now i }
{
    Serial(sets[i])
}

// The first n of the serials, all where n is over 16, become the first members; the words behind
// them stay.
pub fn put_members(sets: &mut [u32; CAPACITY], xs: [Serial; CAPACITY], n: usize)
    ensures members { serials_in sets.new n ≡ members_of xs n }
    ensures behind { (i : ℕ) → n ≤ i → get_or sets.new i 0 ≡ get_or sets.old i 0 }
    ensures long { length sets.new ≡ 16 }
{
    for i in 0..n.min(CAPACITY) {
        sets[i] = xs[i].0;
    }
}
