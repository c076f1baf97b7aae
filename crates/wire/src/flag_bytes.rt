// Flag bytes, taken apart by masks.
ghost use Rattle.std.specs.Prelude.{◌≡◌, ◌^◌, ltb};
ghost use Rattle.paper.specs.Numbers.{bit};

// Bit N of a flag byte, which has none from 8 on.
#[tactic(auto, using(crate::proofs::Powers::no_digit), unfolding(paper::specs::Numbers::bit))]
pub fn bit<const N: u32>(f: u8) -> bool
    ensures { result ≡ bit N f }
{
    N < u8::BITS && f & (1 << N) != 0
}

// Whether the bits from N on are 0: "spare flag bits 0".
#[tactic(auto, using(crate::proofs::Powers::all_spare))]
pub fn spare<const N: u32>(f: u8) -> bool
    ensures { result ≡ ltb f (2 ^ N) }
{
    N >= u8::BITS || f & ((1 << N) - 1) == f
}
