// The parts of demand 3, by their numbers, and what an exchange breaks one of them with.
ghost use Rattle.std.specs.Prelude.{◌≡◌};
ghost use Rattle.watch.specs.Parts.{number_of};

use paper::Blamed;
use std::fmt;

// A part of demand 3 that an exchange may break; a session breaks none. `Display` writes its words.
#[derive(Clone, Copy, PartialEq, Eq)]
pub enum Part {
    NotWhole = 1,
    OtherReply = 2,
    BegunWhileCurrent = 3,
    NotNextSerial = 4,
    BegunOnHeld = 5,
    HandedNotWaiting = 6,
    HandedElsewhere = 7,
    ThrownNotWaiting = 8,
    ThrownByCall = 9,
    ReleasedNothing = 10,
    ReleasedWaiting = 11,
    NamesNotHeld = 12,
    NoCurrent = 13,
    EndMoves = 14,
    LeavesSome = 15,
    StoresTooMany = 16,
    RecordAlone = 17,
    ReplyAlone = 18,
    ThrownByBegin = 19,
}

// The part that an exchange breaks, with the picture and the surface that it does so with.
#[derive(Clone, Copy)]
pub struct Broken {
    pub part: Part,
    pub blamed: Blamed,
}

impl Part {
    // Its number.
    pub fn number(self) -> u8
        ensures { result ≡ number_of self }
    {
        self as u8
    }
}

impl From<Broken> for Part {
    ghost from_gives = { λ x p. p ≡ x.part };

    fn from(x: Broken) -> Part {
        x.part
    }
}

impl fmt::Display for Part {
    fn fmt<W: fmt::Write>(&self, f: &mut fmt::Formatter<W>) -> fmt::Result {
        f.write_str(match self {
            Part::NotWhole => "the bytes are no whole reply",
            Part::OtherReply => "no reply to that record",
            Part::BegunWhileCurrent => "begun while a picture is current",
            Part::NotNextSerial => "begun, but not with the next serial",
            Part::BegunOnHeld => "begun on a surface that is held",
            Part::HandedNotWaiting => "handed out, but no picture of that serial waits",
            Part::HandedElsewhere => "handed out on another surface or with another POC",
            Part::ThrownNotWaiting => "thrown away, but no picture of that serial waits",
            Part::ThrownByCall => "thrown away by a call that throws nothing away",
            Part::ReleasedNothing => "released, but nothing lies on that surface",
            Part::ReleasedWaiting => "released, but the picture there still waits",
            Part::NamesNotHeld => "a set or list names a picture that is not held",
            Part::NoCurrent => "no picture is current",
            Part::EndMoves => "an end of sequence moves something",
            Part::LeavesSome => "something is left that the call clears",
            Part::StoresTooMany => "more is stored than a store holds",
            Part::RecordAlone => "a record without its reply",
            Part::ReplyAlone => "a reply without its record",
            Part::ThrownByBegin => "thrown away by a begin that does not clear",
        })
    }
}
