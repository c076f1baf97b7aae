// What a reader of a stream of replies carries from one reply to the next: what a reply means may depend on those
// before it. So far nothing does.
ghost use Rattle.std.specs.Prelude.{◌≡◌};
ghost use Rattle.paper.specs.Reading.{opening, further, shown_width_in};

use crate::kinds;
use paper::Reading;

// Before the first reply.
pub fn opening() -> Reading
    ensures { result ≡ opening }
{
    Reading {}
}

// Behind a reply.
pub fn further(st: Reading, reply: &[u8]) -> Reading
    ensures { result ≡ further st reply.now }
{
    st
}

// How many bytes name a picture handed out.
pub fn shown_width(st: Reading) -> u8
    ensures { result ≡ shown_width_in st }
{
    kinds::SHOWN_WIDTH
}
