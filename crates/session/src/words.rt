// `front`: the 23 words of a session beside its sets and its store. Here is the place of each, how it is read and how
// it is written; no other file reads or writes one of them, but normal.rt, which looks how they are written.
// FrontPlaces.antt names the same places for the contracts.
ghost use Rattle.std.specs.Prelude.{◌≡◌};
ghost use Rattle.paper.specs.Numbers.{a_serial};
ghost use Rattle.paper.specs.State.{fresh as freshSession};
ghost use Rattle.store.specs.StoreWords.{word, flag_of};
ghost use Rattle.session.specs.FrontPlaces.{CONFIGURED, FIRST, ENDED, NEXT, CURRENT};
ghost use Rattle.session.specs.View.{limits_at, prev_at, current_at, now_at, refs_at};
ghost use Rattle.session.specs.View.{Front, front_in, idle_front, configured_front, begun_front, ended_front};
ghost use Rattle.session.specs.Laid.{front_words, front_of, front_words_of};

use crate::FRONT;
use derivation::ref_lists::Refs;
use paper::{Current, Limits, Serial, Surface, Tid0};
use store::{flag_of, flag_word};

// Words 0 to 3: whether configure was accepted, whether the next begin is first in the bitstream,
// whether it is first after end of sequence, and its serial.
pub(crate) const CONFIGURED: usize = 0;

pub(crate) const FIRST: usize = 1;

pub(crate) const ENDED: usize = 2;

pub(crate) const NEXT: usize = 3;

// Words 4 to 8: the limits that configure set.
pub(crate) const K: usize = 4;

pub(crate) const CAPACITY: usize = 5;

pub(crate) const BUFFERING: usize = 6;

pub(crate) const REORDER: usize = 7;

pub(crate) const LATENCY: usize = 8;

// Words 9 to 11: whether there is a previous Tid0 picture, its lsb and its MSB.
pub(crate) const PREV: usize = 9;

pub(crate) const PREV_LSB: usize = 10;

pub(crate) const PREV_MSB: usize = 11;

// Words 12 to 19: whether a picture is current, and what is known of it.
pub(crate) const CURRENT: usize = 12;

pub(crate) const SERIAL: usize = 13;

pub(crate) const SURFACE: usize = 14;

pub(crate) const POC: usize = 15;

pub(crate) const LSB: usize = 16;

pub(crate) const MSB: usize = 17;

pub(crate) const OUTPUT: usize = 18;

pub(crate) const VALID: usize = 19;

// Words 20 to 22: the sizes of its sets StCurrBefore, StCurrAfter and LtCurr, whose members lie one
// behind the other in a run of their own.
pub(crate) const BEFORE: usize = 20;

pub(crate) const AFTER: usize = 21;

pub(crate) const LONG: usize = 22;

// Whether configure was accepted.
pub(crate) fn is_configured(h: &[u32; FRONT]) -> bool
    ensures { result ≡ flag_of (word h.now CONFIGURED) }
{
    flag_of(h[CONFIGURED])
}

// Whether the next begin is first in the bitstream.
pub(crate) fn is_first(h: &[u32; FRONT]) -> bool
    ensures { result ≡ flag_of (word h.now FIRST) }
{
    flag_of(h[FIRST])
}

// Whether the next begin is first after end of sequence.
pub(crate) fn is_ended(h: &[u32; FRONT]) -> bool
    ensures { result ≡ flag_of (word h.now ENDED) }
{
    flag_of(h[ENDED])
}

// The serial of the next begin.
pub(crate) fn next_serial(h: &[u32; FRONT]) -> Serial
    ensures { result ≡ a_serial (word h.now NEXT) }
{
    Serial(h[NEXT])
}

// Whether a picture is current.
pub(crate) fn is_busy(h: &[u32; FRONT]) -> bool
    ensures { result ≡ flag_of (word h.now CURRENT) }
{
    flag_of(h[CURRENT])
}

// The limits that configure set.
pub(crate) fn limits_in(h: &[u32; FRONT]) -> Limits
    ensures { result ≡ limits_at h.now }
{
    Limits {
        k: (h[K] % 256) as u8,
        capacity: (h[CAPACITY] % 256) as u8,
        buffering: (h[BUFFERING] % 256) as u8,
        reorder: (h[REORDER] % 256) as u8,
        latency: (h[LATENCY] % 65536) as u16,
    }
}

// The previous Tid0 picture.
pub(crate) fn prev_in(h: &[u32; FRONT]) -> Option<Tid0>
    ensures { result ≡ prev_at h.now }
{
    if !flag_of(h[PREV]) {
        return None;
    }
    Some(Tid0 {
        lsb: (h[PREV_LSB] % 65536) as u16,
        msb: wire::signed(h[PREV_MSB]),
    })
}

// What the words say of the current picture; it means nothing where no picture is current.
fn current_in(h: &[u32; FRONT]) -> Current
    ensures { result ≡ current_at h.now }
{
    Current {
        serial: Serial(h[SERIAL]),
        surface: Surface(h[SURFACE]),
        poc: wire::signed(h[POC]),
        lsb: (h[LSB] % 65536) as u16,
        msb: wire::signed(h[MSB]),
        output: flag_of(h[OUTPUT]),
        valid: flag_of(h[VALID]),
    }
}

// The current picture, or that there is none.
pub(crate) fn now_in(h: &[u32; FRONT]) -> Option<Current>
    ensures { result ≡ now_at h.now }
{
    if is_busy(h) {
        Some(current_in(h))
    } else {
        None
    }
}

// The sizes of the current picture's sets.
pub(crate) fn refs_in(h: &[u32; FRONT]) -> Refs
    ensures { result ≡ refs_at h.now }
{
    Refs {
        before: (h[BEFORE] % 256) as u8,
        after: (h[AFTER] % 256) as u8,
        long: (h[LONG] % 256) as u8,
    }
}

// Writes the words of a session that has heard no record.
pub(crate) fn put_fresh(h: &mut [u32; FRONT])
    ensures front { front_in h.new ≡ front_of freshSession }
    ensures words { h.new ≡ front_words_of freshSession }
{
    *h = [0; FRONT];
    h[FIRST] = 1;
}

// Writes that no picture is current and that q is the previous Tid0 picture.
pub(crate) fn put_idle(h: &mut [u32; FRONT], q: Option<Tid0>)
    ensures front { front_in h.new ≡ idle_front (front_in h.old) q }
    ensures words { (f : Front) → h.old ≡ front_words f
        → h.new ≡ front_words (idle_front f q) }
{
    h[CURRENT] = 0;
    h[SERIAL] = 0;
    h[SURFACE] = 0;
    h[POC] = 0;
    h[LSB] = 0;
    h[MSB] = 0;
    h[OUTPUT] = 0;
    h[VALID] = 0;
    h[BEFORE] = 0;
    h[AFTER] = 0;
    h[LONG] = 0;
    match q {
        None => {
            h[PREV] = 0;
            h[PREV_LSB] = 0;
            h[PREV_MSB] = 0;
        }
        Some(p) => {
            h[PREV] = 1;
            h[PREV_LSB] = p.lsb as u32;
            h[PREV_MSB] = wire::bits(p.msb);
        }
    }
}

// Writes that configure was accepted, with these limits.
pub(crate) fn put_limits(h: &mut [u32; FRONT], l: Limits)
    ensures front { front_in h.new ≡ configured_front (front_in h.old) l }
    ensures words { (f : Front) → h.old ≡ front_words f
        → h.new ≡ front_words (configured_front f l) }
{
    h[CONFIGURED] = 1;
    h[K] = l.k as u32;
    h[CAPACITY] = l.capacity as u32;
    h[BUFFERING] = l.buffering as u32;
    h[REORDER] = l.reorder as u32;
    h[LATENCY] = l.latency as u32;
}

// Writes that c is the current picture and x the sizes of its sets; that the next begin is neither first in the
// bitstream nor first after end of sequence; and that its serial is `next`.
pub(crate) fn put_begun(h: &mut [u32; FRONT], c: Current, x: Refs, next: u32)
    ensures front { front_in h.new ≡ begun_front (front_in h.old) c x next }
    ensures words { (f : Front) → h.old ≡ front_words f
        → h.new ≡ front_words (begun_front f c x next) }
{
    h[FIRST] = 0;
    h[ENDED] = 0;
    h[NEXT] = next;
    h[CURRENT] = 1;
    h[SERIAL] = c.serial.0;
    h[SURFACE] = c.surface.0;
    h[POC] = wire::bits(c.poc);
    h[LSB] = c.lsb as u32;
    h[MSB] = wire::bits(c.msb);
    h[OUTPUT] = flag_word(c.output);
    h[VALID] = flag_word(c.valid);
    h[BEFORE] = x.before as u32;
    h[AFTER] = x.after as u32;
    h[LONG] = x.long as u32;
}

// Writes that the next begin is first after end of sequence.
pub(crate) fn put_ended(h: &mut [u32; FRONT])
    ensures front { front_in h.new ≡ ended_front (front_in h.old) }
    ensures words { (f : Front) → h.old ≡ front_words f → h.new ≡ front_words (ended_front f) }
{
    h[ENDED] = 1;
}
