// Records and replies in a stream of bytes: where the first ends, whether a reply is whole, and what its reader carries
// on.
#![tactic(auto)]

mod carried;
pub mod kinds;
pub mod records;
mod replies;

ghost use Rattle.format.specs.Cut.{WholeIn};

pub use carried::{further, opening, shown_width};
pub use kinds::{Kind, UnknownKind};
pub use replies::{behind, behind_shown, is_whole, members, tail_place};

// The size of the record or reply at the start of these bytes where all of it is there.
pub fn whole(bytes: &[u8]) -> Option<usize>
    ensures { WholeIn bytes.now result }
{
    if bytes.len() < kinds::BODY_PLACE {
        return None;
    }
    let n = kinds::BODY_PLACE + usize::from(wire::u16_at(bytes, 0));
    if bytes.len() < n { None } else { Some(n) }
}
