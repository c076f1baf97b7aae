// A tenant's check of demand 3, from records and replies alone: the ledger of document 01's demand in arrays of fixed
// size. It judges the replies of any session, so nothing is asked of them, nor of the book: a length over the greatest
// capacity, 16, counts as that.
#![tactic(auto)]

mod blamed;
mod demand;
mod events;
mod exchanges;
mod held;
mod line;
mod parts;
mod replies;
mod totals;

ghost use Rattle.std.specs.Prelude.{◌≡◌, [], ◌≤◌, length};
ghost use Rattle.paper.specs.Reading.{opening};
ghost use Rattle.paper.specs.Ledger.{blank};
ghost use Rattle.watch.specs.Book.{Holds, HoldsBook, view, clamped, no_tally};
ghost use Rattle.watch.specs.Hears.{Hears};

pub use blamed::blame;
pub use demand::{Broken, Part};
pub use exchanges::{Paired, hear_all};
use paper::{Line, Reading, Serial, Surface};
pub use replies::plus;
use store::Store;
pub use totals::{current, surfaces, waiting};

// Lines of the ledger in the first `len` places: those held, and room for the current one.
#[derive(Clone, Copy)]
pub struct Lines {
    pub items: [Line; Lines::PLACES],
    pub len: usize,
}

// How many pictures were handed out and thrown away, how many accepted lists were checked, and how many records were
// refused; each stops at the greatest value.
#[derive(Clone, Copy)]
pub struct Tally {
    pub handed: u64,
    pub thrown: u64,
    pub lists: u64,
    pub refused: u64,
}

// What somebody knows who has seen the records and the replies: the pictures stored, the current one if there is one,
// how many were begun, the tally, and what the reader of the replies carries to the next one.
#[derive(Clone, Copy)]
pub struct Book {
    pub held: Lines,
    pub current: Option<Line>,
    pub begun: u64,
    pub tally: Tally,
    pub reading: Reading,
}

impl Lines {
    // The pictures stored and the current one.
    pub const PLACES: usize = Store::TAIL;

    // No line.
    pub fn none() -> Self
        ensures { Holds result [] }
    {
        let e = Line {
            serial: Serial(0),
            surface: Surface(0),
            poc: 0,
            wants: false,
        };
        Lines {
            items: [e; Lines::PLACES],
            len: 0,
        }
    }

    // The lines in the used places: a length over their number counts as their number.
    pub(crate) fn in_use(&self) -> &[Line]
        ensures lines { result.now ≡ view self.now }
        ensures few { length (view self.now) ≤ 17 }
    {
        &self.items[..self.len.min(Lines::PLACES)]
    }

    // The first of them, as many as a store holds.
    pub(crate) fn within_capacity(self) -> Self
        ensures { result ≡ clamped self }
    {
        Lines {
            len: self.len.min(Store::CAPACITY),
            ..self
        }
    }
}

impl Book {
    // Before the first exchange.
    pub fn new() -> Self
        ensures { HoldsBook result opening blank no_tally }
    {
        Book {
            held: Lines::none(),
            current: None,
            begun: 0,
            tally: Tally {
                handed: 0,
                thrown: 0,
                lists: 0,
                refused: 0,
            },
            reading: format::opening(),
        }
    }
}

// One exchange: the book after it, or the first part of demand 3 that it breaks. A broken exchange goes into no book.
pub fn hear(b: Book, msg: &[u8], reply: &[u8]) -> Result<Book, Part>
    ensures { Hears b msg.now reply.now result }
{
    if !format::is_whole(b.reading, reply) {
        return Err(Part::NotWhole);
    }
    if !replies::answers(msg, reply) {
        return Err(Part::OtherReply);
    }
    let k = parts::judge(held::tidy(b), msg, reply)?;
    Ok(replies::counted(k, reply))
}
