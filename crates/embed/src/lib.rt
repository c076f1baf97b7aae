// A session in memory that a host lends, for C and Rust, and a pool of surfaces above one. The memory of a session is
// three runs of words of 32 bits, and that of a pool three words of 64 bits beside them: what they hold is no business
// of the host's, and any words are taken as some session and some pool, so that no value of them does harm. A call
// changes them where they stand.
#![tactic(auto)]

ghost use Rattle.std.specs.Prelude.{◌≡◌, ◌+◌, ◌*◌, replicate};
ghost use Rattle.paper.specs.State.{fresh as freshSession};
ghost use Rattle.session.specs.View.{memory, session_in};
ghost use Rattle.session.specs.Laid.{NormalMemory};
ghost use Rattle.pool.specs.Memory.{pool_memory};
ghost use Rattle.pool.specs.Said.{Makes, GivesBack};
ghost use Rattle.embed.specs.Lent.{words, layout, pool_words, SaysNormal, Stepped, PoolStepped};

use session::FRONT;
use store::Store;

// How many bytes a session takes: the words beside the sets and the store, those of the sets and those of the store.
#[unsafe(no_mangle)]
pub extern "C" fn trusshemp_session_size() -> usize
    ensures { result ≡ 4 * words }
{
    4 * (FRONT + Store::CAPACITY + Store::WORDS)
}

// The number of the layout of a session's and a pool's memory. It goes up whenever a word is added, moved or means
// something else, so that a host that keeps memory and reads it again can tell whether it was written by this layout.
const LAYOUT: u32 = 1;

// The number of the layout.
#[unsafe(no_mangle)]
pub extern "C" fn trusshemp_layout() -> u32
    ensures { result ≡ layout }
{
    LAYOUT
}

// Whether the memory is a session in the normal form, by 1 or 0: what `trusshemp_fresh_in` makes and every call keeps.
// Any words may be given; those of the sets do not matter.
// Kept: the C interface: a truth value is 0 or 1, and the session's words are lent as three runs.
#[unsafe(no_mangle)]
pub extern "C" fn trusshemp_is_normal_in(
    front: &[u32; FRONT],
    sets: &[u32; Store::CAPACITY],
    store: &[u32; Store::WORDS],
) -> u16
    ensures { SaysNormal result (memory front.now sets.now store.now) }
{
    u16::from(session::is_normal(front, sets, store))
}

// Makes the memory a fresh session, whatever it held.
// Kept: the C interface: the session's words are lent as three runs.
#[unsafe(no_mangle)]
pub extern "C" fn trusshemp_fresh_in(
    front: &mut [u32; FRONT],
    sets: &mut [u32; Store::CAPACITY],
    store: &mut [u32; Store::WORDS],
)
    ensures session { session_in
        (memory front.new sets.new store.new) ≡ freshSession }
    ensures normal { NormalMemory (memory front.new sets.new store.new) }
    ensures blank { sets.new ≡ replicate 16 0 }
{
    session::fresh(front, sets, store);
}

// One call: the record gets its reply, `length` the reply's length in bytes, and the answer is the refusal number, 0
// when accepted. A refused record leaves the memory as it was.
// Kept: the C interface: a refusal is a number, the length an out parameter, and the words are lent as three runs.
#[unsafe(no_mangle)]
pub extern "C" fn trusshemp_step_in(
    front: &mut [u32; FRONT],
    sets: &mut [u32; Store::CAPACITY],
    store: &mut [u32; Store::WORDS],
    msg: &[u8],
    reply: &mut [u8],
    length: &mut usize,
) -> u16
    ensures { Stepped (memory front.old sets.old store.old) msg.now
        reply.old result length.new (memory front.new sets.new store.new)
        reply.new }
{
    let a = session::step(front, sets, store, msg, reply);
    *length = a.len;
    a.number
}

// How many bytes a pool takes: its own words of 64 bits, and its session.
#[unsafe(no_mangle)]
pub extern "C" fn trusshemp_pool_size() -> usize
    ensures { result ≡ 8 * pool_words + 4 * words }
{
    8 * pool::WORDS + trusshemp_session_size()
}

// Makes the memory a pool of that many surfaces over a fresh session, whatever it held; or answers 20 and leaves it as
// it was.
// Kept: the C interface: a refusal is a number, and the words of the pool and of the session are lent apart.
#[unsafe(no_mangle)]
pub extern "C" fn trusshemp_pool_make_in(
    pool: &mut [u64; pool::WORDS],
    front: &mut [u32; FRONT],
    sets: &mut [u32; Store::CAPACITY],
    store: &mut [u32; Store::WORDS],
    surfaces: u32,
) -> u16
    ensures { Makes
        (pool_memory pool.old (memory front.old sets.old store.old))
        surfaces result
        (pool_memory pool.new (memory front.new sets.new store.new)) }
{
    pool::number(pool::make(pool, front, sets, store, surfaces))
}

// One call of the pool: as `trusshemp_step_in`, but the pool chooses the surface of a begin, and `surface` is the one
// that it chose, or 64 where no begin was accepted. A refused record leaves the memory as it was.
// Kept: the C interface: a refusal and no surface are numbers, length and surface out parameters, the words lent apart.
#[unsafe(no_mangle)]
pub extern "C" fn trusshemp_pool_step_in(
    pool: &mut [u64; pool::WORDS],
    front: &mut [u32; FRONT],
    sets: &mut [u32; Store::CAPACITY],
    store: &mut [u32; Store::WORDS],
    msg: &[u8],
    reply: &mut [u8],
    length: &mut usize,
    surface: &mut u32,
) -> u16
    ensures { PoolStepped
        (pool_memory pool.old (memory front.old sets.old store.old))
        msg.now reply.old result length.new surface.new
        (pool_memory pool.new (memory front.new sets.new store.new))
        reply.new }
{
    let g = pool::step(pool, front, sets, store, msg, reply);
    *length = g.len;
    *surface = pool::surface_number(g.surface);
    g.number
}

// The display gives a picture on that surface back: the answer is 0, or 19, which leaves the words as they were. The
// session is not lent.
// Kept: the C interface: a refusal is a number.
#[unsafe(no_mangle)]
pub extern "C" fn trusshemp_pool_return_in(pool: &mut [u64; pool::WORDS], surface: u32) -> u16
    ensures { GivesBack pool.old surface result pool.new }
{
    pool::number(pool::give_back(pool, surface))
}
