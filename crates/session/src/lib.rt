// Layer 3, the session: one call takes lent memory that a session lies in, a lent record and a lent reply buffer,
// and answers a number and the reply's length. Any bytes get an answer, and any memory is safe: its words are taken
// as some session, whatever they are.
#![tactic(auto)]

mod begin;
mod calls;
mod lists;
mod normal;
mod records;
mod replies;
mod words;

ghost use Rattle.std.specs.Prelude.{◌≡◌, replicate};
ghost use Rattle.paper.specs.State.{fresh as freshSession};
ghost use Rattle.session.specs.Numbered.{number_of};
ghost use Rattle.session.specs.declared.Refusal.TheVariants.{Outside, StoreFull};
ghost use Rattle.session.specs.View.{memory, session_in};
ghost use Rattle.session.specs.Laid.{NormalMemory};
ghost use Rattle.paper.specs.Step.{decide_of};
ghost use Rattle.format.specs.Kind.{KindIn};
ghost use Rattle.session.specs.Said.{Calls, no_room, Permitted, Declines, Roomy, refused_kind};
ghost use Rattle.session.specs.Target.{taken_as};

use derivation::Outside;
use format::{Kind, kinds};
pub use normal::is_normal;
use paper::Surface;
use store::{Full, Store};

// How many words a session has beside its sets and its store; words.rt says what each of them is.
pub const FRONT: usize = 23;

// "The call answers the refusal number, 0 when accepted, and the reply's length in bytes."
// Kept: a number with a length beside it and no Result, since that sentence of the scope (docs/01-scope.md) stands.
#[derive(Clone, Copy, PartialEq, Eq, Debug)]
pub struct Answer {
    pub number: u16,
    pub len: usize,
}

impl Answer {
    // Number 14: nothing is written.
    fn no_room() -> Self
        ensures { result ≡ no_room }
    {
        Answer {
            number: u16::from(Refusal::NoRoom),
            len: 0,
        }
    }
}

// The refusals, numbered from 1 to 14: "Numbers a session says no with".
#[derive(Clone, Copy, PartialEq, Eq, Debug)]
pub enum Refusal {
    Unconfigured = 1,
    BadLimits,
    Busy,
    NoCurrent,
    OutOfRange,
    Outside,
    SurfaceHeld,
    SerialsSpent,
    StoreFull,
    NoCandidate,
    TooMany,
    BadEntry,
    Malformed,
    NoRoom,
}

impl From<Outside> for Refusal {
    ghost from_gives = { λ _ why. why ≡ Outside };

    fn from(_: Outside) -> Refusal {
        Refusal::Outside
    }
}

impl From<Full> for Refusal {
    ghost from_gives = { λ _ why. why ≡ StoreFull };

    fn from(_: Full) -> Refusal {
        Refusal::StoreFull
    }
}

impl From<Refusal> for u16 {
    ghost from_gives = { λ r n. n ≡ number_of r };

    // The number of a refusal.
    fn from(r: Refusal) -> u16 {
        r as u16
    }
}

// Makes the memory a session that has heard no record, whatever it held.
pub fn fresh(
    front: &mut [u32; FRONT],
    sets: &mut [u32; Store::CAPACITY],
    store: &mut [u32; Store::WORDS],
)
    ensures session { session_in (memory front.new sets.new store.new)
        ≡ freshSession }
    ensures normal { NormalMemory (memory front.new sets.new store.new) }
    ensures blank { sets.new ≡ replicate 16 0 }
{
    words::put_fresh(front);
    *sets = [0; Store::CAPACITY];
    store::forget_all(store);
}

// One call, on a record: refused by 14, then by 13, and else answered by the call that its kind names.
pub fn step(
    front: &mut [u32; FRONT],
    sets: &mut [u32; Store::CAPACITY],
    store: &mut [u32; Store::WORDS],
    msg: &[u8],
    reply: &mut [u8],
) -> Answer
    ensures { Permitted
        (memory front.old sets.old store.old) msg.now reply.old
        result (memory front.new sets.new store.new) reply.new }
{
    step_at(front, sets, store, None, msg, reply)
}

// The same call, told the surface that the caller chose for a begin, if one: a begin is answered as if its record named
// that surface, any other record as it is. No copy of the record is made.
pub fn step_at(
    front: &mut [u32; FRONT],
    sets: &mut [u32; Store::CAPACITY],
    store: &mut [u32; Store::WORDS],
    surface: Option<Surface>,
    msg: &[u8],
    reply: &mut [u8],
) -> Answer
    ensures { Permitted
        (memory front.old sets.old store.old)
        (taken_as surface msg.now) reply.old
        result (memory front.new sets.new store.new) reply.new }
{
    if reply.len() < Store::REPLY {
        return Answer::no_room();
    }
    let kind = format::records::kind(msg);
    match tried(front, sets, store, surface, kind, msg, reply) {
        Ok(len) => Answer { number: 0, len },
        Err(why) => replies::refuse(reply, refused_kind(kind), why),
    }
}

// The number that stands for the kind in a refusal, by the kind that was read: that of a malformed record if there is
// none.
fn refused_kind(kind: Option<Kind>) -> u16
    ensures { result ≡ refused_kind kind }
{
    kind.map_or(kinds::MALFORMED, Kind::reply)
}

// Calls what the kind that was read names, if there is one: the length of the reply, or the refusal, with nothing
// written.
fn tried(
    front: &mut [u32; FRONT],
    sets: &mut [u32; Store::CAPACITY],
    store: &mut [u32; Store::WORDS],
    surface: Option<Surface>,
    kind: Option<Kind>,
    msg: &[u8],
    reply: &mut [u8],
) -> Result<usize, Refusal>
    requires { KindIn msg.now kind × Roomy reply.old }
    ensures { Calls (refused_kind kind) (λ s. decide_of s (taken_as surface msg.now))
        front sets store reply result }
{
    match kind {
        Some(Kind::Configure) => calls::configure(front, store, msg, reply),
        Some(Kind::Begin) => begin::begin(front, sets, store, surface, msg, reply),
        Some(Kind::Lists) => lists::lists(front, sets, msg, reply),
        Some(Kind::Finish) => calls::finish(front, store, reply),
        Some(Kind::Drain) => calls::drain(front, store, reply),
        Some(Kind::Discard) => Ok(calls::discard(front, store, reply)),
        Some(Kind::End) => Ok(calls::end(front, reply)),
        Some(Kind::Abandon) => calls::abandon(front, reply),
        None => Err(Refusal::Malformed),
    }
}

// A refusal by a layer above the session, with a number of its own. A buffer that is too small gets 14, and nothing is
// written.
pub fn decline(reply: &mut [u8], kind: u16, n: u16) -> Answer
    ensures { Declines kind n reply.old result reply.new }
{
    if reply.len() < Store::REPLY {
        return Answer::no_room();
    }
    let len = replies::put_head(reply, 2, kind, n);
    Answer { number: n, len }
}
