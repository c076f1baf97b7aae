// Words and numbers, written into a lent buffer. Each function gives the place behind what it wrote.
ghost use Rattle.std.specs.Prelude.{◌≡◌, [], cond, ◌+◌, ◌≤◌, ◌<◌, length, drop};
ghost use Rattle.std.proofs.Common.{to_z};
ghost use Rattle.std.specs.Int.{w32};
ghost use Rattle.stream.specs.Text.{decimal, integer, Wrote};

// These bytes.
#[tactic(auto, using(crate::proofs::Spelling::stored))]
pub fn put(d: &mut [u8], at: usize, word: &[u8]) -> usize
    requires { at + length word.now ≤ length d.old }
    ensures { Wrote d.old at word.now (length word.now) result d.new }
{
    let end = at + word.len();
    d[at..end].copy_from_slice(word);
    end
}

// A word, or nothing.
pub fn put_if(d: &mut [u8], at: usize, on: bool, word: &[u8]) -> usize
    requires { at + length word.now ≤ length d.old }
    ensures { Wrote d.old at (cond on word.now []) (length word.now) result
        d.new }
{
    if on { put(d, at, word) } else { at }
}

// Puts the decimal digits of a number at the end of the buffer, and gives the place where they start.
fn digits_of(n: u64, digits: &mut [u8; 20]) -> usize
    ensures within { result ≤ 20 }
    ensures spelled { drop result digits.new ≡ decimal n }
{
    let mut i = 20;
    let mut rest = n;
    while rest >= 10 {
        i -= 1;
        digits[i] = b'0' + (rest % 10) as u8;
        rest /= 10;
    }
    i -= 1;
    digits[i] = b'0' + rest as u8;
    i
}

// A number in decimal digits.
fn put_decimal(d: &mut [u8], at: usize, n: u64) -> usize
    requires { at + length (decimal n) ≤ length d.old }
    ensures { Wrote d.old at (decimal n) (length (decimal n)) result d.new }
{
    let mut digits = [0u8; 20];
    let start = digits_of(n, &mut digits);
    put(d, at, &digits[start..])
}

// Any number: it has at most twenty digits.
#[tactic(auto, using(crate::proofs::Spelling::twenty_digits, crate::proofs::Spelling::roomier))]
pub fn put_u64(d: &mut [u8], at: usize, n: u64) -> usize
    requires { at + 20 ≤ length d.old }
    ensures { Wrote d.old at (decimal n) 20 result d.new }
{
    put_decimal(d, at, n)
}

// A number of 32 bits: it has at most ten digits.
#[tactic(auto, using(crate::proofs::Spelling::ten_digits, crate::proofs::Spelling::roomier))]
pub fn put_u32(d: &mut [u8], at: usize, n: u32) -> usize
    requires { at + 10 ≤ length d.old }
    ensures { Wrote d.old at (decimal n) 10 result d.new }
{
    put_decimal(d, at, u64::from(n))
}

// The number whose two's complement these 32 bits are.
pub fn put_signed(d: &mut [u8], at: usize, x: u32) -> usize
    requires { at + 11 ≤ length d.old }
    ensures { Wrote d.old at (integer (to_z w32 x)) 11 result d.new }
{
    let n = x.cast_signed();
    let a = put_if(d, at, n < 0, b"-");
    put_u32(d, a, n.unsigned_abs())
}
