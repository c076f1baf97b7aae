// "All numbers little-endian": numbers read from and written to lent bytes.
#![tactic(auto)]

pub mod flag_bytes;

ghost use Rattle.std.specs.Prelude.{◌≡◌, ◌+◌, ◌*◌, ◌≤◌, length, [], ◌∷◌};
ghost use Rattle.std.proofs.lemmas.List.Edits.{sets};
ghost use Rattle.std.proofs.Common.{to_z, of_z};
ghost use Rattle.std.specs.Int.{w32};
ghost use Rattle.paper.specs.Numbers.{u8, u16, u32, u64, i32, bytes16, bytes32, bytes64};

// The byte at a place, and 0 past the end: nothing is asked of the caller.
pub fn byte(s: &[u8], at: usize) -> u8
    ensures { result ≡ u8 s.now at }
{
    s.get(at).copied().unwrap_or(0)
}

// A number of 16 bits from two bytes, the lowest first.
fn half(lo: u8, hi: u8) -> u16
    ensures { result ≡ lo + 256 * hi }
{
    u16::from(lo) + 256 * u16::from(hi)
}

// A number of 32 bits from two halves, the lower first.
fn whole(lo: u16, hi: u16) -> u32
    ensures { result ≡ lo + 65536 * hi }
{
    u32::from(lo) + 65536 * u32::from(hi)
}

// No slice is longer, and a place below it and a few more do not overflow.
pub const BEYOND: usize = 0x8000_0000_0000_0000;

// The u16 at a place. One test is enough where both bytes are there.
// Kept: one `at::<N>` by `from_le_bytes` of N bytes, 0 past the end, counts 11% to 34% more for an entry of a begin.
pub fn u16_at(s: &[u8], at: usize) -> u16
    ensures { result ≡ u16 s.now at }
{
    if at < BEYOND {
        if at + 2 <= s.len() {
            return half(s[at], s[at + 1]);
        }
        return half(byte(s, at), 0);
    }
    0
}

// The u32 at a place. One test is enough where all four bytes are there.
pub fn u32_at(s: &[u8], at: usize) -> u32
    ensures { result ≡ u32 s.now at }
{
    if at < BEYOND {
        if at + 4 <= s.len() {
            return whole(half(s[at], s[at + 1]), half(s[at + 2], s[at + 2 + 1]));
        }
        return whole(u16_at(s, at), u16_at(s, at + 2));
    }
    0
}

// A number of 64 bits from two halves, the lower first.
fn wide(lo: u32, hi: u32) -> u64
    ensures { result ≡ lo + 4294967296 * hi }
{
    u64::from(lo) + 4294967296 * u64::from(hi)
}

// The u64 at a place.
pub fn u64_at(s: &[u8], at: usize) -> u64
    ensures { result ≡ u64 s.now at }
{
    if at < BEYOND {
        return wide(u32_at(s, at), u32_at(s, at + 4));
    }
    0
}

// The number whose two's complement these 32 bits are.
pub fn signed(x: u32) -> i32
    ensures { result ≡ to_z w32 x }
{
    x.cast_signed()
}

// The 32 bits of a number's two's complement.
pub fn bits(x: i32) -> u32
    ensures { result ≡ of_z w32 x }
{
    x.cast_unsigned()
}

// The i32 at a place.
pub fn i32_at(s: &[u8], at: usize) -> i32
    ensures { result ≡ i32 s.now at }
{
    signed(u32_at(s, at))
}

// Writes bytes, and gives the place behind them.
#[tactic(auto, using(crate::proofs::Laws::part_over))]
fn put(d: &mut [u8], at: usize, bytes: &[u8]) -> usize
    requires { at + length bytes.now ≤ length d.old }
    ensures { (result ≡ at + length bytes.now) × (d.new ≡ sets d.old at bytes.now) }
{
    d[at..at + bytes.len()].copy_from_slice(bytes);
    at + bytes.len()
}

// Writes one byte, and gives the place behind it.
pub fn put_u8(d: &mut [u8], at: usize, b: u8) -> usize
    requires { at + 1 ≤ length d.old }
    ensures { (result ≡ at + 1) × (d.new ≡ sets d.old at (b ∷ [])) }
{
    put(d, at, &[b])
}

// Writes two bytes, the lowest first, and gives the place behind them.
pub fn put_u16(d: &mut [u8], at: usize, x: u16) -> usize
    requires { at + 2 ≤ length d.old }
    ensures { (result ≡ at + 2) × (d.new ≡ sets d.old at (bytes16 x)) }
{
    put(d, at, &x.to_le_bytes())
}

// Writes four bytes, the lowest first, and gives the place behind them.
#[tactic(auto, unfolding(paper::specs::Numbers::bytes32))]
pub fn put_u32(d: &mut [u8], at: usize, x: u32) -> usize
    requires { at + 4 ≤ length d.old }
    ensures { (result ≡ at + 4) × (d.new ≡ sets d.old at (bytes32 x)) }
{
    put(d, at, &x.to_le_bytes())
}

// Writes eight bytes, the lowest first, and gives the place behind them.
#[tactic(auto, using(crate::proofs::Laws::eight_bytes))]
pub fn put_u64(d: &mut [u8], at: usize, x: u64) -> usize
    requires { at + 8 ≤ length d.old }
    ensures { (result ≡ at + 8) × (d.new ≡ sets d.old at (bytes64 x)) }
{
    put(d, at, &x.to_le_bytes())
}
