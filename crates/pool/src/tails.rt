// What an accepted reply's tail tells the pool: the surfaces that pictures were handed out on and those that were
// released, read where they lie in the reply.
ghost use Rattle.std.specs.Prelude.{map, ◌≤◌, ◌<◌, drop};
ghost use Rattle.paper.specs.Reading.{opening as openingReading};
ghost use Rattle.paper.specs.Ledger.{read_tail, read_reply};
ghost use Rattle.paper.specs.Accounts.{tail_in};
ghost use Rattle.pool.specs.Pool.{number_at};
ghost use Rattle.pool.specs.Marks.{surfaces_in, BitsOf, Tells, Told};

use crate::{WORDS, marks};
use format::{Kind, behind, behind_shown, kinds, opening, shown_width, tail_place};
use paper::{Reading, Surface};

// What a tail tells of a pool's surfaces: the bits of those that pictures were handed out on, and of the released.
#[derive(Clone, Copy)]
struct Tail {
    handed: u64,
    released: u64,
}

// The bits of `count` surfaces that stand in a reply, so many bytes apart from a place on; those that are none of n
// are left out.
fn named(n: u32, reply: &[u8], at: usize, width: usize, count: usize) -> u64
    requires { (n ≤ 64) × ((count ≤ 255) × ((width ≤ 255) × (at ≤ 30000))) }
    ensures { BitsOf n (surfaces_in reply.now at width count) result }
{
    let mut bits = 0;
    for i in 0..count {
        bits |= marks::bit_of(n, wire::u32_at(reply, at + width * i));
    }
    bits
}

// What the tail at a place of the reply tells.
fn tail_at(n: u32, st: Reading, reply: &[u8], at: usize) -> Tail
    requires { (n ≤ 64) × (at ≤ 5120) }
    ensures { Tells n (read_tail st (drop at reply.now)) result }
{
    let second = behind_shown(st, reply, at);
    let third = behind(reply, second, kinds::WORD_WIDTH);
    let shown = wire::byte(reply, at) as usize;
    let width = shown_width(st) as usize;
    let handed = named(n, reply, at + 1 + kinds::SHOWN_SURFACE, width, shown);
    let freed = wire::byte(reply, third) as usize;
    let released = named(n, reply, third + 1, kinds::WORD, freed);
    Tail { handed, released }
}

// What an accepted reply's tail tells. A refusal and accepted lists have none.
fn tail_of(n: u32, reply: &[u8]) -> Tail
    requires { n ≤ 64 }
    ensures { Tells n (tail_in (read_reply openingReading reply.now)) result }
{
    let refused = wire::u16_at(reply, kinds::NUMBER_PLACE) != 0;
    if refused | (wire::u16_at(reply, kinds::KIND_PLACE) == Kind::Lists.reply()) {
        return Tail {
            handed: 0,
            released: 0,
        };
    }
    tail_at(n, opening(), reply, tail_place(reply))
}

// Tells the pool what an accepted reply says, and then that the surface of a begin is held.
pub(crate) fn account(pool: &mut [u64; WORDS], reply: &[u8], begun: Option<Surface>)
    ensures { Told pool.old (number_at begun)
        (tail_in (read_reply openingReading reply.now)) pool.new }
{
    let n = marks::surfaces_in(pool);
    let t = tail_of(n, reply);
    let begun = match begun {
        Some(x) => marks::bit_of(n, x.0),
        None => 0,
    };
    pool[marks::HELD] = pool[marks::HELD] & !t.released | begun;
    pool[marks::PENDING] |= t.handed;
}
