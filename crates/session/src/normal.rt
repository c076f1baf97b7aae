// Whether the memory that a host lends is a session in the normal form: each word is the one that what it says is
// written as, and behind what is used all is blank.
ghost use Rattle.std.specs.Prelude.{◌≡◌, ◌+◌, ◌≤◌, ◌<◌};
ghost use Rattle.store.specs.Decides.{Decides};
ghost use Rattle.store.specs.StoreWords.{word};
ghost use Rattle.session.specs.FrontPlaces.{CONFIGURED, K, PREV, CURRENT, BEFORE, AFTER, LONG};
ghost use Rattle.session.specs.View.{memory, limits_at, prev_at, now_at};
ghost use Rattle.session.specs.Laid.{limits_words, prev_words, now_words, NormalMemory};
ghost use Rattle.session.specs.Laid.{words_from, flag_words, no_picture, current_words};

use crate::{FRONT, words};
use paper::{Current, Serial, Surface};
use store::{Store, flag_word};

// Whether the flags in front are written as flags are.
fn flags_laid(h: &[u32; FRONT]) -> bool
    ensures { Decides result (words_from h.now CONFIGURED 3 ≡ flag_words h.now) }
{
    let configured = h[words::CONFIGURED] == flag_word(words::is_configured(h));
    let first = h[words::FIRST] == flag_word(words::is_first(h));
    let ended = h[words::ENDED] == flag_word(words::is_ended(h));
    configured & first & ended
}

// Whether the limits are written as limits are.
fn limits_laid(h: &[u32; FRONT]) -> bool
    ensures { Decides result (words_from h.now K 5 ≡ limits_words (limits_at h.now)) }
{
    let l = words::limits_in(h);
    let k = h[words::K] == l.k as u32;
    let capacity = h[words::CAPACITY] == l.capacity as u32;
    let buffering = h[words::BUFFERING] == l.buffering as u32;
    let reorder = h[words::REORDER] == l.reorder as u32;
    let latency = h[words::LATENCY] == l.latency as u32;
    k & capacity & buffering & reorder & latency
}

// Whether the previous Tid0 picture, or that there is none, is written as such.
fn prev_laid(h: &[u32; FRONT]) -> bool
    ensures { Decides result (words_from h.now PREV 3 ≡ prev_words (prev_at h.now)) }
{
    match words::prev_in(h) {
        None => { (h[words::PREV] == 0) & (h[words::PREV_LSB] == 0) & (h[words::PREV_MSB] == 0) }
        Some(p) => {
            (h[words::PREV] == 1)
                & (h[words::PREV_LSB] == p.lsb as u32)
                & (h[words::PREV_MSB] == wire::bits(p.msb))
        }
    }
}

// What is written where no picture is current: 0 in each word.
fn no_picture() -> Current
    ensures { result ≡ no_picture }
{
    Current {
        serial: Serial(0),
        surface: Surface(0),
        poc: 0,
        lsb: 0,
        msb: 0,
        output: false,
        valid: false,
    }
}

// Whether the words of the current picture are those that c is written as behind the flag.
fn current_is(h: &[u32; FRONT], flag: u32, c: Current) -> bool
    ensures { Decides result (words_from h.now CURRENT 8 ≡ current_words flag c) }
{
    (h[words::CURRENT] == flag)
        & (h[words::SERIAL] == c.serial.0)
        & (h[words::SURFACE] == c.surface.0)
        & (h[words::POC] == wire::bits(c.poc))
        & (h[words::LSB] == c.lsb as u32)
        & (h[words::MSB] == wire::bits(c.msb))
        & (h[words::OUTPUT] == flag_word(c.output))
        & (h[words::VALID] == flag_word(c.valid))
}

// Whether the current picture, or that there is none, is written as such.
fn current_laid(h: &[u32; FRONT]) -> bool
    ensures { Decides result (words_from h.now CURRENT 8 ≡ now_words (now_at h.now)) }
{
    match words::now_in(h) {
        None => current_is(h, 0, no_picture()),
        Some(c) => current_is(h, 1, c),
    }
}

// Whether the sets have room for as many members as their sizes say.
fn sizes_laid(h: &[u32; FRONT]) -> bool
    ensures { Decides result
        (word h.now BEFORE + word h.now AFTER + word h.now LONG ≤ 16) }
{
    let members = h[words::BEFORE] as usize + h[words::AFTER] as usize + h[words::LONG] as usize;
    members <= Store::CAPACITY
}

// Whether the memory is a session in the normal form. Any words may be given; those of the sets do not matter.
pub fn is_normal(
    front: &[u32; FRONT],
    sets: &[u32; Store::CAPACITY],
    store: &[u32; Store::WORDS],
) -> bool
    ensures { Decides result (NormalMemory (memory front.now sets.now store.now)) }
{
    let rest = flags_laid(front)
        & limits_laid(front)
        & prev_laid(front)
        & current_laid(front)
        & sizes_laid(front);
    rest & store::is_normal(store)
}
