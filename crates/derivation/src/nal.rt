// NAL types (Table 7-1), and the flags of a picture that its type decides (8.1.3, C.5.2.2, 8.3.1).
ghost use Rattle.std.specs.Prelude.{◌≡◌, true, eqb};
ghost use Rattle.paper.specs.Words.{any_b};
ghost use Rattle.paper.specs.Nal.{irap, idr, taken, sub_layer_non_reference};
ghost use Rattle.paper.specs.Flags.{no_rasl_output, pic_output, no_prior_output, valid_prev};
ghost use Rattle.derivation.specs.Classes.{class_of, types_of, irap_in, idr_in, taken_in, cra_in, rasl_in, no_rasl_in};
ghost use Rattle.derivation.specs.Classes.{prev_in};
ghost use Rattle.derivation.specs.declared.nal.NalClass.{NalClass};

// The class of a NAL type; `Refused` is a type that is not taken.
#[derive(Clone, Copy, PartialEq, Eq)]
pub enum NalClass {
    Idr,
    Bla,
    Cra,
    Radl,
    Rasl,
    Other,
    Refused,
}

impl NalClass {
    // Whether a class is taken.
    fn is_taken(self) -> bool
        ensures { result ≡ taken_in self }
    {
        self != NalClass::Refused
    }

    // Whether a class is IRAP.
    fn is_irap(self) -> bool
        ensures { result ≡ irap_in self }
    {
        matches!(self, NalClass::Idr | NalClass::Bla | NalClass::Cra)
    }

    // Whether a class is IDR.
    fn is_idr(self) -> bool
        ensures { result ≡ idr_in self }
    {
        self == NalClass::Idr
    }

    // Whether a class is CRA.
    fn is_cra(self) -> bool
        ensures { result ≡ cra_in self }
    {
        self == NalClass::Cra
    }

    // Whether a class is RASL.
    fn is_rasl(self) -> bool
        ensures { result ≡ rasl_in self }
    {
        self == NalClass::Rasl
    }

    // Whether a class begins anew: IDR, BLA, or CRA first in the bitstream.
    fn is_no_rasl(self, at_start: bool) -> bool
        ensures { result ≡ no_rasl_in self at_start }
    {
        match self {
            NalClass::Idr | NalClass::Bla => true,
            NalClass::Cra => at_start,
            _ => false,
        }
    }

    // Whether a class lets a picture be prevTid0Pic.
    fn may_be_prev(self, non_reference: bool) -> bool
        ensures { result ≡ prev_in self non_reference }
    {
        !matches!(self, NalClass::Radl | NalClass::Rasl) & !non_reference
    }
}

// The class of a type: "Types 0 to 9 and 16 to 21 are taken" (Table 7-1).
pub fn nal_class(t: u8) -> NalClass
    ensures class { result ≡ class_of t }
    ensures types { any_b (eqb t) (types_of result) ≡ true }
    ensures only { (c : NalClass) → any_b (eqb t) (types_of c) ≡ true → c ≡ result }
{
    match t {
        0..=5 => NalClass::Other,
        6..=7 => NalClass::Radl,
        8..=9 => NalClass::Rasl,
        16..=18 => NalClass::Bla,
        19..=20 => NalClass::Idr,
        21 => NalClass::Cra,
        _ => NalClass::Refused,
    }
}

// Whether a type is taken.
pub fn is_taken(t: u8) -> bool
    ensures { result ≡ taken t }
{
    nal_class(t).is_taken()
}

// Whether a type is IRAP: "IRAP 16 to 21".
pub fn is_irap(t: u8) -> bool
    ensures { result ≡ irap t }
{
    nal_class(t).is_irap()
}

// Whether a type is IDR: "IDR 19 and 20".
pub fn is_idr(t: u8) -> bool
    ensures { result ≡ idr t }
{
    nal_class(t).is_idr()
}

// NoRaslOutputFlag (8.1.3): "IDR, BLA, CRA first in the bitstream, or any type first after end of sequence".
pub fn no_rasl_output(t: u8, at_start: bool, ended: bool) -> bool
    ensures { result ≡ no_rasl_output t at_start ended }
{
    nal_class(t).is_no_rasl(at_start) | ended
}

// PicOutputFlag (C.5.2.2): "0 for RASL with this flag, else as given".
pub fn pic_output(t: u8, no_rasl: bool, given: bool) -> bool
    ensures { result ≡ pic_output t no_rasl given }
{
    given & !(nal_class(t).is_rasl() & no_rasl)
}

// NoOutputOfPriorPicsFlag (C.5.2.2): "IRAP with NoRaslOutputFlag, not first in the bitstream, and CRA or flagged".
pub fn no_prior_output(t: u8, no_rasl: bool, at_start: bool, flagged: bool) -> bool
    ensures { result ≡ no_prior_output t no_rasl at_start flagged }
{
    let class = nal_class(t);
    class.is_irap() & no_rasl & !at_start & (class.is_cra() | flagged)
}

// Whether a type is sub-layer non-reference: "0, 2, 4, 6, 8".
fn non_reference(t: u8) -> bool
    ensures { result ≡ sub_layer_non_reference t }
{
    (t <= 8) & (t % 2 == 0)
}

// Valid for prevTid0Pic (8.3.1): "temporal id 0, not RASL, RADL or sub-layer non-reference".
pub fn valid_prev(t: u8, tid: u8) -> bool
    ensures { result ≡ valid_prev t tid }
{
    (tid == 0) & nal_class(t).may_be_prev(non_reference(t))
}
