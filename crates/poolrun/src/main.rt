// `pool SURFACES`: makes a pool of that many surfaces, reads calls from standard input and writes the answers
// (docs/POOL.md). A call is answered when all of it is there, so a last one that is incomplete gets no answer.
#![tactic(auto)]

ghost use Rattle.std.specs.Prelude.{◌≡◌, is_some, IfSome, ◌+◌, ◌≤◌, length};
ghost use Rattle.std.proofs.lemmas.List.Edits.{sets as put};
ghost use Rattle.pool.specs.Pool.{Pool, can_make, made};
ghost use Rattle.filter.specs.Answers.{Added};
ghost use Rattle.filter.specs.Turns.{standing, Serves};
ghost use Rattle.poolrun.specs.Files.{code_of, done_by, head_bytes, digit_of, count_in};
ghost use Rattle.poolrun.specs.Machine.{pools, pool_of};

use filter::{After, Machine};
use format::kinds;
use pool::WORDS;
use session::FRONT;
use std::io;
use std::io::{Read, Write};
use store::Store;
use stream::files;
use stream::files::NAME;

// A call has at most 65,539 bytes, so there is always room to read on behind one that is not whole yet.
const INPUT: usize = 131072;

// Room for the answers of one write.
const OUTPUT: usize = 65536;

// The bytes of an answer in front of the reply, and the longest answer.
const HEAD: usize = 8;

const ANSWER: usize = HEAD + Store::REPLY;

// The kind of the return of a surface.
const RETURN: u16 = 1;

// What a call does, and what its answer says that it did.
#[derive(Clone, Copy, PartialEq, Eq)]
enum Kind {
    Record,
    Return,
}

impl Kind {
    // Kind 1 is the return of a surface; every other kind lends its body as a record.
    fn of(call: &[u8]) -> Kind
        ensures { result ≡ done_by call.now }
    {
        match wire::u16_at(call, kinds::KIND_PLACE) {
            RETURN => Kind::Return,
            _ => Kind::Record,
        }
    }
}

impl From<Kind> for u16 {
    ghost from_gives = { λ k n. n ≡ code_of k };

    fn from(kind: Kind) -> u16 {
        match kind {
            Kind::Record => 0,
            Kind::Return => RETURN,
        }
    }
}

// Writes the first bytes of an answer at a place: "u16 body length, u16 kind", u16 number, u16 surface.
fn put_head(d: &mut [u8], at: usize, kind: Kind, len: usize, number: u16, surface: u32)
    requires { (at + 8 ≤ length d.old) × (len ≤ 512) × (surface ≤ 64) }
    ensures { d.new ≡ put d.old at (head_bytes (code_of kind) len number surface) }
{
    let a = wire::put_u16(d, at, (4 + len) as u16);
    let b = wire::put_u16(d, a, kind.into());
    let c = wire::put_u16(d, b, number);
    wire::put_u16(d, c, surface as u16);
}

// The memory of a pool and of its session.
#[derive(Drop)]
struct Memory {
    pool: [u64; WORDS],
    front: [u32; FRONT],
    sets: [u32; Store::CAPACITY],
    store: [u32; Store::WORDS],
}

// A pool answers calls. The kind of a call says whether it lends a record or returns a surface.
impl Machine for Memory {
    const ROOM: usize = ANSWER;

    ghost ROOM = { 520 };

    ghost State = { Pool };

    ghost moves = { pools };

    ghost state = { pool_of };

    fn answer(&mut self, call: &[u8], out: &mut [u8], made: usize) -> usize {
        match Kind::of(call) {
            Kind::Record => self.answer_record(call, out, made),
            Kind::Return => self.answer_return(call, out, made),
        }
    }
}

impl Memory {
    // A pool of so many surfaces, where there can be one.
    fn make(surfaces: u32) -> Option<Memory>
        ensures can { is_some result ≡ can_make surfaces }
        ensures made { IfSome result (λ m. pool_of m ≡ made surfaces) }
    {
        let mut memory = Memory {
            pool: [0; WORDS],
            front: [0; FRONT],
            sets: [0; Store::CAPACITY],
            store: [0; Store::WORDS],
        };
        let Memory {
            pool,
            front,
            sets,
            store,
        } = &mut memory;
        pool::make(pool, front, sets, store, surfaces).ok()?;
        Some(memory)
    }

    // Answers a call that lends a record, behind the `made` bytes of the earlier answers: how many bytes the answer has.
    fn answer_record(&mut self, call: &[u8], out: &mut [u8], made: usize) -> usize
        requires { (4 ≤ length call.now) × (done_by call.now ≡ Kind.Record) × (made + 520 ≤ length out.old) }
        ensures { Added pools (pool_of self.old) call.now made out.old result (pool_of self.new) out.new }
    {
        let Memory {
            pool,
            front,
            sets,
            store,
        } = self;
        let record = &call[kinds::BODY_PLACE..];
        let reply = &mut out[made + HEAD..made + ANSWER];
        let a = pool::step(pool, front, sets, store, record, reply);
        let surface = pool::surface_number(a.surface);
        put_head(out, made, Kind::Record, a.len, a.number, surface);
        HEAD + a.len
    }

    // Answers a call that returns a surface.
    fn answer_return(&mut self, call: &[u8], out: &mut [u8], made: usize) -> usize
        requires { (done_by call.now ≡ Kind.Return) × (made + 520 ≤ length out.old) }
        ensures { Added pools (pool_of self.old) call.now made out.old result (pool_of self.new) out.new }
    {
        let surface = wire::u32_at(call, kinds::BODY_PLACE);
        let answer = pool::give_back(&mut self.pool, surface);
        let number = pool::number(answer);
        put_head(out, made, Kind::Return, 0, number, pool::NO_SURFACE);
        HEAD
    }
}

// Turn after turn from the pool that the memory is.
fn run<R: Read, W: Write>(
    machine: &mut Memory,
    source: &mut R,
    sink: &mut W,
    input: &mut [u8],
    output: &mut [u8],
) -> After
    requires { (65539 ≤ length input.old) × (520 ≤ length output.old) }
    ensures { Serves pools (pool_of machine.old)
        (standing (pool_of machine.new) result input.new output.new) }
{
    filter::run(machine, source, sink, input, output)
}

// The value of a decimal digit.
fn digit(b: u8) -> Option<u32>
    ensures { result ≡ digit_of b }
{
    match b {
        b'0'..=b'9' => Some(u32::from(b - b'0')),
        _ => None,
    }
}

// The number that the argument says: one or two digits. Anything else is no number of surfaces that a pool can have.
fn count_of(word: &[u8]) -> Option<u32>
    ensures { result ≡ count_in word.now }
{
    match word {
        [b] => digit(*b),
        [a, b] => Some(10 * digit(*a)? + digit(*b)?),
        _ => None,
    }
}

// The pool and both buffers are here, of one size for any length of input.
fn main(rt: HostRuntime) -> io::Result<()> {
    if !files::are_given(&rt, 1) {
        return eprintln!(rt; "usage: pool SURFACES");
    }
    let mut word = [0u8; NAME];
    let argument = files::argument(&rt, 1, &mut word);
    let Some(mut memory) = argument.and_then(count_of).and_then(Memory::make) else {
        return eprintln!(rt; "pool: 20: SURFACES must be a number from 1 to 64");
    };
    let mut source = rt.stdin();
    let mut sink = rt.stdout();
    let mut input = [0u8; INPUT];
    let mut output = [0u8; OUTPUT];
    let t = run(&mut memory, &mut source, &mut sink, &mut input, &mut output);
    if let Some(what) = t.next.failure() {
        eprintln!(rt; "pool: {what}")?;
    }
    Ok(())
}
