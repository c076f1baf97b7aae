// The words that a host lends a store in: sixteen places of six words, and behind them how many are used. No other file
// of the store knows them, but normal.rt, which looks how they are written. A store is read from them (`load`) and
// written back (`save`); each whole operation does both.
ghost use Rattle.std.specs.Prelude.{◌≡◌, cond, [], map, ◌^◌, ◌≤◌, ◌<◌, min, max, leb, length};
ghost use Rattle.paper.specs.Words.{any_b};
ghost use Rattle.paper.specs.Step.{held_by};
ghost use Rattle.paper.specs.Sets.{unmarked_if};
ghost use Rattle.paper.specs.Output.{emptied, before_decoding};
ghost use Rattle.paper.specs.Calls.{finished, drained, discarded};
ghost use Rattle.std.specs.Prelude.{Some};
ghost use Rattle.store.specs.Walks.{blank, change_by, unmark_if};
ghost use Rattle.store.specs.StoreWords.{flag_of, flag_word, mark_of, mark_word, picture_at, pictures};
ghost use Rattle.store.specs.StoreWords.{stored, count_in};
ghost use Rattle.store.specs.StoreWords.{Puts, Tidy, NormalForm};
ghost use Rattle.store.specs.Places.{front, stored_in, roomy, room_of, number_of_room};
ghost use Rattle.store.specs.Bumps.{Leaves};
ghost use Rattle.store.specs.Runs.{wishes_within, Derives};

use crate::pictures::{Change, Sought, none, passes, read_as};
use crate::searches::used_in;
use crate::{Derived, Full, Moved, Store, operations, sets};
use paper::{Current, Limits, Mark, Picture, Serial, Surface, Wish};

// Where the words say how many places are used.
pub(crate) const USED: usize = 96;

// How many words a place has.
pub(crate) const PLACE: usize = 6;

// How many places are used.
fn used_places(store: &[u32; Store::WORDS]) -> usize
    ensures { (result ≡ count_in store.now) × (result ≤ 16) }
{
    (store[USED] as usize).min(Store::CAPACITY)
}

// That a picture more may be stored: number 9 compares with the capacity, over 16 taken as 16.
pub fn room_in(store: &[u32; Store::WORDS], l: Limits) -> Result<(), Full>
    ensures answer { result ≡ room_of (leb (min l.capacity 16) (length (stored store.now))) }
    ensures number { number_of_room result ≡ cond
        (leb (min l.capacity 16) (length (stored store.now))) 9 0 }
{
    let most = (l.capacity as usize).min(Store::CAPACITY);
    if most <= used_places(store) {
        return Err(Full);
    }
    Ok(())
}

// Whether a flag is on: it is unless its word is 0.
pub fn flag_of(x: u32) -> bool
    ensures { result ≡ flag_of x }
{
    x != 0
}

// The word of a flag: 1 if it is on, 0 if not.
pub fn flag_word(b: bool) -> u32
    ensures { result ≡ flag_word b }
{
    u32::from(b)
}

// The mark of a number.
// Kept: `From` would have to stand in `paper`, which has no function; any number is read as some mark.
fn mark_of(x: u32) -> Mark
    ensures { result ≡ mark_of x }
{
    match x {
        1 => Mark::ShortTerm,
        2 => Mark::LongTerm,
        _ => Mark::Unmarked,
    }
}

// The number of a mark.
// Kept: `From` would have to stand in `paper`, which has no function.
pub(crate) fn mark_word(m: Mark) -> u32
    ensures { result ≡ mark_word m }
{
    match m {
        Mark::Unmarked => 0,
        Mark::ShortTerm => 1,
        Mark::LongTerm => 2,
    }
}

// The picture at a place.
pub(crate) fn picture_at(store: &[u32; Store::WORDS], i: usize) -> Picture
    requires { i < 16 }
    ensures { result ≡ picture_at store.now i }
{
    let at = PLACE * i;
    Picture {
        serial: Serial(store[at]),
        surface: Surface(store[at + 1]),
        poc: wire::signed(store[at + 2]),
        mark: mark_of(store[at + 3]),
        waiting: flag_of(store[at + 4]),
        count: store[at + 5],
    }
}

// Puts a picture at a place.
fn put_picture(store: &mut [u32; Store::WORDS], i: usize, p: Picture)
    requires { i < 16 }
    ensures { Puts i p store.old store.new }
{
    let at = PLACE * i;
    store[at] = p.serial.0;
    store[at + 1] = p.surface.0;
    store[at + 2] = wire::bits(p.poc);
    store[at + 3] = mark_word(p.mark);
    store[at + 4] = flag_word(p.waiting);
    store[at + 5] = p.count;
}

// A place holds nothing.
fn put_blank(store: &mut [u32; Store::WORDS], i: usize)
    requires { i < 16 }
    ensures { Puts i blank store.old store.new }
{
    put_picture(store, i, none());
}

// Blanks places k to n − 1.
fn blank_from(store: &mut [u32; Store::WORDS], k: usize, n: usize)
    requires { (k ≤ n) × (n ≤ 16) }
    ensures kept { pictures store.new k ≡ pictures store.old k }
    ensures tidy { Tidy store.old n → Tidy store.new k }
{
    for i in k..n {
        put_blank(store, i);
    }
}

// The first n places are the store.
fn set_used(store: &mut [u32; Store::WORDS], n: usize)
    requires { n ≤ 16 }
    ensures pics { stored store.new ≡ pictures store.old n }
    ensures normal { Tidy store.old n → NormalForm store.new }
{
    store[USED] = n as u32;
}

// The store that the words hold, each picture changed as it is read.
fn load(store: &[u32; Store::WORDS], x: Change) -> Store
    ensures few { (result.len ≡ count_in store.now) × (result.len ≤ 16) }
    ensures holds { front result.places result.len ≡ map (change_by x) (stored store.now) }
{
    let n = used_places(store);
    let b = none();
    let mut places = [b; Store::CAPACITY];
    for i in 0..n {
        places[i] = read_as(picture_at(store, i), x);
    }
    Store { places, len: n }
}

// The words hold the store that a call left; behind it they are blank.
fn save(store: &mut [u32; Store::WORDS], m: Moved)
    requires { m.len ≤ 16 }
    ensures pics { stored store.new ≡ front m.places m.len }
    ensures normal { NormalForm store.old → NormalForm store.new }
{
    let was = used_places(store);
    let n = m.len;
    for i in 0..n {
        put_picture(store, i, m.places[i]);
    }
    blank_from(store, n, n.max(was));
    set_used(store, n);
}

// The words hold an empty store, whatever they held.
pub fn forget_all(store: &mut [u32; Store::WORDS])
    ensures pics { stored store.new ≡ [] }
    ensures normal { NormalForm store.new }
{
    *store = [0; Store::WORDS];
    save(store, operations::start(Store::empty()));
}

// Whether a stored picture holds the surface x (number 7).
pub fn holds_surface(store: &[u32; Store::WORDS], x: Surface) -> bool
    ensures { result ≡ any_b (held_by x) (stored store.now) }
{
    for i in 0..used_places(store) {
        if passes(Sought::HeldBy(x), picture_at(store, i)) {
            return true;
        }
    }
    false
}

// An IRAP picture with NoRaslOutputFlag (`over`) unmarks all.
fn unmarking(over: bool) -> Change
    ensures { result ≡ unmark_if over }
{
    if over {
        Change::Unmark
    } else {
        Change::Nothing
    }
}

// Step 4 of begin (8.3.2) on the store that the words hold, which stay: the store with its marks, and the sets. The
// wishes are neg, pos and lt ones, one behind the other; a count over the places that are left counts as those.
pub fn derive_and_mark_rps(
    store: &[u32; Store::WORDS],
    k: u8,
    over: bool,
    wishes: &[Wish; Store::CAPACITY],
    neg: usize,
    pos: usize,
    lt: usize,
) -> Derived
    ensures { Derives (2 ^ (min k 16)) (unmarked_if over (stored store.now))
        (wishes_within wishes.now neg pos lt) result }
{
    let n = neg.min(Store::CAPACITY);
    let p = pos.min(Store::CAPACITY - n);
    let q = lt.min(Store::CAPACITY - n - p);
    sets::derive_and_mark_rps(load(store, unmarking(over)), k, wishes, n, p, q)
}

// Step 5 of begin (C.5.2.2) on a store, which the words then hold.
pub fn update_dpb_before_decoding(
    store: &mut [u32; Store::WORDS],
    s: Store,
    starts: bool,
    no_prior: bool,
    l: Limits,
) -> Moved
    ensures { Leaves (before_decoding starts no_prior l (stored_in s)) store.old store.new
        result }
{
    let s = Store {
        len: used_in(s),
        ..s
    };
    let m = operations::update_dpb_before_decoding(s, starts, no_prior, l);
    save(store, m);
    m
}

// Finish (C.5.2.3): counts rise, the picture is stored, and others are handed out while due, without the buffering
// test. Where every place is used it takes the last one; `room_in` tells before.
pub fn finish_picture(store: &mut [u32; Store::WORDS], c: Current, l: Limits) -> Moved
    ensures { Leaves (finished l (roomy (stored store.old)) c) store.old
        store.new result }
{
    let m = operations::finish_picture(load(store, Change::Raise), c, l);
    save(store, m);
    m
}

// Drain with a current picture: it is finished, then the store is emptied.
pub fn finish_and_drain(store: &mut [u32; Store::WORDS], c: Current, l: Limits) -> Moved
    ensures { Leaves (drained l (roomy (stored store.old)) (Some c)) store.old
        store.new result }
{
    let m = operations::finish_and_drain(load(store, Change::Raise), c, l);
    save(store, m);
    m
}

// Drain with no current picture: the store is emptied.
pub fn drain(store: &mut [u32; Store::WORDS]) -> Moved
    ensures { Leaves (emptied (stored store.old)) store.old store.new result }
{
    let m = operations::drain(load(store, Change::Nothing));
    save(store, m);
    m
}

// Discard: the current picture is thrown away and released first, then the store is cleared.
pub fn discard(store: &mut [u32; Store::WORDS], x: Option<Current>) -> Moved
    ensures { Leaves (discarded (stored store.old) x) store.old store.new result }
{
    let m = operations::discard(load(store, Change::Nothing), x);
    save(store, m);
    m
}
