// The lines in their places: walks that look for one, change all, or leave some out.
ghost use Rattle.std.specs.Prelude.{◌≡◌, [], ◌∷◌, ◌++◌, map, ◌≤◌, ◌<◌, find};
ghost use Rattle.paper.specs.Words.{keep, any_b};
ghost use Rattle.paper.specs.Ledger.{free};
ghost use Rattle.paper.specs.Blame.{first_line};
ghost use Rattle.watch.specs.Book.{Holds, HoldsBook, view, Good, current_in, clamped, book_in};
ghost use Rattle.watch.specs.Walks.{asking, changing};

use crate::line::{Ask, asked, changed, stays};
use crate::{Book, Lines};
use paper::{Blamed, Line, Serial, Surface};

// The first line that is what the walk asks for.
pub(crate) fn find(l: Lines, q: Ask) -> Option<Line>
    ensures { result ≡ find (asking q) (view l) }
{
    l.in_use().iter().copied().find(|e| asked(q, *e))
}

// Whether a line is what the walk asks for.
pub(crate) fn has_any(l: Lines, q: Ask) -> bool
    ensures { result ≡ any_b (asking q) (view l) }
{
    l.in_use().iter().any(|e| asked(q, *e))
}

// The picture and the surface of a line; where there is none, `other`.
pub(crate) fn of_line(c: Option<Line>, other: Blamed) -> Blamed
    ensures { result ≡ first_line other (current_in c) }
{
    match c {
        None => other,
        Some(e) => Blamed::Both(e.serial, e.surface),
    }
}

// The picture and the surface of the first line that is what the walk asks for; where there is none, `other`.
pub(crate) fn found(l: Lines, q: Ask, other: Blamed) -> Blamed
    ensures { result ≡ first_line other (keep (asking q) (view l)) }
{
    of_line(find(l, q), other)
}

// One line more.
pub(crate) fn push(l: Lines, e: Line) -> Lines
    requires good { Good l }
    requires len_bound { l.len < 17 }
    ensures { Holds result (view l ++ (e ∷ [])) }
{
    let mut t = l;
    t.items[l.len] = e;
    t.len += 1;
    t
}

// Every line, no longer waiting if it has this serial, in new places, which are therefore in normal form.
pub(crate) fn change_all(l: Lines, off: Option<Serial>) -> Lines
    ensures { Holds result (map (changing off) (view l)) }
{
    let mut t = Lines::none();
    for e in l.in_use() {
        t = push(t, changed(*e, off));
    }
    t
}

// The lines that are not on this surface.
pub(crate) fn freed(l: Lines, x: Surface) -> Lines
    ensures { Holds result (free x.0 (view l)) }
{
    let mut t = Lines::none();
    for e in l.in_use() {
        if stays(*e, x) {
            t = push(t, *e);
        }
    }
    t
}

// The lines, and behind them the current one.
pub(crate) fn joined(l: Lines, c: Option<Line>) -> Lines
    requires { Good l × (l.len < 17) }
    ensures { Holds result (view l ++ current_in c) }
{
    match c {
        None => l,
        Some(e) => push(l, e),
    }
}

// The lines held, of which there are no more than a store holds, in normal form.
fn held_of(l: Lines) -> Lines
    ensures { Holds result (view (clamped l)) × (result.len ≤ 16) }
{
    change_all(l.within_capacity(), None)
}

// The same book in normal form.
pub(crate) fn tidy(b: Book) -> Book
    ensures { HoldsBook result b.reading (book_in b) b.tally }
{
    Book {
        held: held_of(b.held),
        ..b
    }
}
