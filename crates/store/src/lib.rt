// Layer 2, the stored pictures: searches, marks, handing out, removal and emptying (8.3.2, C.5.2). It knows nothing of
// records and replies. A store is sixteen picture records and how many are used; it is worked on by value. Only `words`
// knows the words that a host lends a store in: any words may be given, and a length over 16 counts as 16. Sets and
// marks tell a picture by its serial, handing out by the place where it was found.
#![tactic(auto)]

mod bumping;
mod lent;
mod marks;
mod normal;
mod operations;
mod pictures;
mod removal;
mod searches;
mod sets;
mod words;

ghost use Rattle.std.specs.Prelude.{◌≡◌, ◌<◌, [], replicate};
ghost use Rattle.store.specs.Walks.{blank};
ghost use Rattle.store.specs.Tails.{HoldsRun, pushed, HoldsHanded, HoldsThrown, HoldsReleased, HoldsParts};

use derivation::CAPACITY;
pub use lent::{
    find_ref_by_poc_in, find_ref_by_poc_masked_in, find_short_term_ref_by_poc_in, set_mark,
};
pub use normal::is_normal;
pub use operations::abandon;
use paper::{Picture, Serial, Shown, Surface};
pub use searches::{find_ref_by_poc, find_ref_by_poc_masked, find_short_term_ref_by_poc};
pub use words::{
    derive_and_mark_rps, discard, drain, finish_and_drain, finish_picture, flag_of, flag_word,
    forget_all, holds_surface, room_in, update_dpb_before_decoding,
};

// As many as may go in one call: the stored pictures and the current one.
const TAIL: usize = CAPACITY + 1;

// Places of one type, of which the first `len` are used, in order.
#[derive(Clone, Copy)]
pub struct Run<T, const N: usize> {
    pub items: [T; N],
    pub len: usize,
}

// The pictures handed out.
pub type Handed = Run<Shown, CAPACITY>;

// The serials thrown away.
pub type Thrown = Run<Serial, TAIL>;

// The surfaces released.
pub type Released = Run<Surface, TAIL>;

// A store after a call, and the call's tail: what it handed out, threw away and released, and how many of each.
// Kept: tried with a `Store` and three `Run`s as its fields; replay then takes 6 to 10 % more instructions.
#[derive(Clone, Copy)]
pub struct Moved {
    pub places: [Picture; Store::CAPACITY],
    pub len: usize,
    pub handed: [Shown; Store::CAPACITY],
    pub shown: usize,
    pub thrown: [Serial; Store::TAIL],
    pub dropped: usize,
    pub released: [Surface; Store::TAIL],
    pub freed: usize,
}

// No picture more may be stored: number 9.
#[derive(Clone, Copy, PartialEq, Eq)]
pub struct Full;

// The sizes of the five sets (8.3.2).
#[derive(Clone, Copy)]
pub struct Sizes {
    pub before: usize,
    pub after: usize,
    pub long: usize,
    pub foll: usize,
    pub lt_foll: usize,
}

// A store after step 4 of begin, and the sets: first StCurrBefore, StCurrAfter and LtCurr, then StFoll and LtFoll, one
// behind the other.
#[derive(Clone, Copy)]
pub struct Derived {
    pub store: Store,
    pub first: [Serial; Store::CAPACITY],
    pub second: [Serial; Store::CAPACITY],
    pub sizes: Sizes,
}

// A store: its places, of which the first `len` are used, in the order the pictures came.
#[derive(Clone, Copy)]
pub struct Store {
    pub places: [Picture; Store::CAPACITY],
    pub len: usize,
}

impl Store {
    // The greatest capacity.
    pub const CAPACITY: usize = CAPACITY;

    // The words that a store is lent in: six for each place, and how many are used.
    pub const WORDS: usize = 97;

    // The stored pictures and the current one may go in one call.
    pub const TAIL: usize = TAIL;

    // The least reply buffer, in bytes.
    pub const REPLY: usize = 512;

    // Stands for a missing picture.
    pub const MISSING: u32 = 4294967295;

    // A store that holds nothing.
    pub fn empty() -> Self
        ensures { result ≡ record { places = replicate 16 blank; len = 0 } }
    {
        Store {
            places: [pictures::none(); Store::CAPACITY],
            len: 0,
        }
    }
}

impl<T: Copy, const N: usize> Run<T, N> {
    // None is used.
    pub(crate) fn of(blank: T) -> Self
        ensures { HoldsRun blank result [] }
    {
        Run {
            items: [blank; N],
            len: 0,
        }
    }

    // One more, behind those that are used.
    pub(crate) fn push(&mut self, x: T)
        requires { self.old.len < N }
        ensures { self.new ≡ pushed self.old x }
    {
        self.items[self.len] = x;
        self.len += 1;
    }
}

impl Handed {
    // No picture handed out.
    pub fn none() -> Self
        ensures { HoldsHanded result [] }
    {
        Run::of(Shown {
            serial: Serial(0),
            surface: Surface(0),
            poc: 0,
        })
    }
}

impl Thrown {
    // No serial thrown away.
    pub fn none() -> Self
        ensures { HoldsThrown result [] }
    {
        Run::of(Serial(0))
    }
}

impl Released {
    // No surface released.
    pub fn none() -> Self
        ensures { HoldsReleased result [] }
    {
        Run::of(Surface(0))
    }
}

impl Moved {
    // A store, and what has gone of it.
    pub(crate) fn of(
        places: [Picture; Store::CAPACITY],
        len: usize,
        h: Handed,
        t: Thrown,
        r: Released,
    ) -> Self
        ensures { HoldsParts result places len h t r }
    {
        let handed = h.items;
        let thrown = t.items;
        let released = r.items;
        Moved {
            places,
            len,
            handed,
            shown: h.len,
            thrown,
            dropped: t.len,
            released,
            freed: r.len,
        }
    }
}
