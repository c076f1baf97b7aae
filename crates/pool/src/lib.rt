// A pool of surfaces above a session (document 02, Item 10). It chooses the surface of each begin, and knows which
// surfaces the session holds and on which the display still has a picture. It lies in lent memory, three words beside
// those of its session. Any bytes get an answer, and any memory is safe: its words are taken as some pool.
#![tactic(auto)]

mod marks;
mod tails;

ghost use Rattle.std.specs.Prelude.{◌≡◌};
ghost use Rattle.session.specs.View.{Memory, memory};
ghost use Rattle.pool.specs.Pool.{number_at};
ghost use Rattle.pool.specs.Memory.{pool_memory, pool_in};
ghost use Rattle.pool.specs.Numbered.{number_of, number_in};
ghost use Rattle.pool.specs.Said.{Makes, TakenWith, Permitted, GivesBack};

use format::{Kind, kinds};
use paper::Surface;
use session::{Answer, FRONT};
use store::Store;

// How many words of 64 bits a pool has beside its session; marks.rt says what each of them is.
pub const WORDS: usize = 3;

// The number of no surface: what a host is told where no begin was accepted. A pool has at most as many surfaces.
pub const NO_SURFACE: u32 = 64;

// The refusals of the pool: no surface is free; a return for a surface with none pending or not in the pool; a pool
// asked for with 0 or more than 64 surfaces.
#[derive(Clone, Copy, PartialEq, Eq, Debug)]
pub enum Refusal {
    NoneFree,
    NonePending,
    BadCount,
}

// The number that a host is told.
impl From<Refusal> for u16 {
    ghost from_gives = { λ r n. n ≡ number_of r };

    fn from(r: Refusal) -> u16 {
        match r {
            Refusal::NoneFree => 18,
            Refusal::NonePending => 19,
            Refusal::BadCount => 20,
        }
    }
}

// The number of what `make` or `give_back` answered, 0 where it was accepted.
pub fn number(answer: Result<(), Refusal>) -> u16
    ensures { result ≡ number_in answer }
{
    match answer {
        Ok(()) => 0,
        Err(r) => u16::from(r),
    }
}

// The refusal number, 0 when accepted, the reply's length in bytes, and the surface that an accepted begin was given.
// Kept: an enum is no plainer: the number is that of the session's Answer, and a refusal has a reply too.
#[derive(Clone, Copy)]
pub struct Given {
    pub number: u16,
    pub len: usize,
    pub surface: Option<Surface>,
}

// The number of a surface, 64 for none.
pub fn surface_number(surface: Option<Surface>) -> u32
    ensures { result ≡ number_at surface }
{
    surface.map_or(NO_SURFACE, |x| x.0)
}

// What is answered with a refusal: no surface was given.
fn declined(a: Answer) -> Given
    ensures { result ≡ record { number = a.number; len = a.len; surface = None } }
{
    Given {
        number: a.number,
        len: a.len,
        surface: None,
    }
}

// The surface that a record is taken with: the lowest free one where its kind is that of a begin, if one is free. Where
// none is, a well-formed begin is refused; what no begin can be is not looked at further.
fn surface_for(pool: &[u64; WORDS], msg: &[u8]) -> Result<Option<Surface>, Refusal>
    ensures { (m : Memory) → TakenWith (pool_in (pool_memory pool.now m)) msg.now result }
{
    if wire::u16_at(msg, kinds::KIND_PLACE) != Kind::Begin.number() {
        return Ok(None);
    }
    let surface = marks::lowest_free(pool);
    if surface.is_none() && format::records::kind(msg) == Some(Kind::Begin) {
        return Err(Refusal::NoneFree);
    }
    Ok(surface)
}

// Makes the memory a pool of that many surfaces over a fresh session, whatever it held; or refuses the count, and leaves
// the memory as it was.
// Kept: the C interface: a host lends the words of the pool and the three runs of its session apart.
pub fn make(
    pool: &mut [u64; WORDS],
    front: &mut [u32; FRONT],
    sets: &mut [u32; Store::CAPACITY],
    store: &mut [u32; Store::WORDS],
    surfaces: u32,
) -> Result<(), Refusal>
    ensures { Makes
        (pool_memory pool.old (memory front.old sets.old store.old))
        surfaces (number_in result)
        (pool_memory pool.new (memory front.new sets.new store.new)) }
{
    if !(1..=NO_SURFACE).contains(&surfaces) {
        return Err(Refusal::BadCount);
    }
    marks::put_fresh(pool, surfaces);
    session::fresh(front, sets, store);
    Ok(())
}

// One call, on a record. A well-formed begin takes the lowest free surface, whatever its record names, and is refused
// by 18 where none is free; all else is answered by the session.
// Kept: the C interface: a host lends the words of the pool and the three runs of its session apart.
pub fn step(
    pool: &mut [u64; WORDS],
    front: &mut [u32; FRONT],
    sets: &mut [u32; Store::CAPACITY],
    store: &mut [u32; Store::WORDS],
    msg: &[u8],
    reply: &mut [u8],
) -> Given
    ensures { Permitted
        (pool_memory pool.old (memory front.old sets.old store.old))
        msg.now reply.old result
        (pool_memory pool.new (memory front.new sets.new store.new))
        reply.new }
{
    let surface = match surface_for(pool, msg) {
        Ok(surface) => surface,
        Err(refusal) => {
            let a = session::decline(reply, Kind::Begin.reply(), u16::from(refusal));
            return declined(a);
        }
    };
    let a = session::step_at(front, sets, store, surface, msg, reply);
    if a.number != 0 {
        return declined(a);
    }
    let len = a.len;
    tails::account(pool, &reply[..len], surface);
    Given {
        number: 0,
        len,
        surface,
    }
}

// The display gives a picture on that surface back: takes one pending return away; or refuses it, and leaves the words
// as they were.
pub fn give_back(pool: &mut [u64; WORDS], surface: u32) -> Result<(), Refusal>
    ensures { GivesBack pool.old surface (number_in result) pool.new }
{
    let returned = marks::bit_of(marks::surfaces_in(pool), surface);
    if pool[marks::PENDING] & returned == 0 {
        return Err(Refusal::NonePending);
    }
    pool[marks::PENDING] &= !returned;
    Ok(())
}
