// What a book holds, in numbers.
ghost use Rattle.std.specs.Prelude.{◌≡◌, ◌++◌, ◌≤◌, length};
ghost use Rattle.paper.specs.Accounts.{wanting};
ghost use Rattle.watch.specs.Book.{book_in};

use crate::Book;

// How many stored pictures wait.
pub fn waiting(b: Book) -> usize
    ensures { result ≡ length (wanting (book_in b).held) }
{
    let held = b.held.within_capacity();
    held.in_use().iter().filter(|e| e.wants).count()
}

// How many pictures are current: one or none.
pub fn current(b: Book) -> usize
    ensures { (result ≡ length (book_in b).current) × (result ≤ 1) }
{
    usize::from(b.current.is_some())
}

// How many surfaces are held, by stored pictures and the current one.
pub fn surfaces(b: Book) -> usize
    ensures { result ≡ length ((book_in b).held ++ (book_in b).current) }
{
    b.held.within_capacity().in_use().len() + current(b)
}
