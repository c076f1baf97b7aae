// What a tail tells, event by event, read where it lies in the reply.
ghost use Rattle.std.specs.Prelude.{◌≡◌, ◌≤◌, ◌<◌, drop};
ghost use Rattle.paper.specs.Reading.{shown_width_in};
ghost use Rattle.paper.specs.Ledger.{upon, events, read_tail, Hand, Throw, Free};
ghost use Rattle.paper.specs.Watch.{event_part};
ghost use Rattle.paper.specs.Blame.{event_blame};
ghost use Rattle.watch.specs.Book.{Holds, view, Good};
ghost use Rattle.watch.specs.Parts.{part_in};
ghost use Rattle.watch.specs.Events.{Tells, event_in, event_at, size_of, events_of, counted, shown_at};

use crate::held::{change_all, found, freed, has_any};
use crate::line::Ask;
use crate::{Broken, Lines, Part};
use format::{behind, behind_shown, kinds, shown_width};
use paper::{Blamed, Reading, Serial, Shown, Surface};

// One thing that a tail tells.
#[derive(Clone, Copy)]
pub enum Event {
    Hand(Shown),
    Throw(Serial),
    Free(Surface),
}

// The three sections of a tail.
#[derive(Clone, Copy)]
pub enum Section {
    Handed,
    Thrown,
    Released,
}

// The picture handed out that stands at a place: "serial u32, surface u32, POC i32".
fn shown_at(st: Reading, reply: &[u8], at: usize) -> Shown
    requires { at < 100000 }
    ensures { result ≡ shown_at st reply.now at }
{
    Shown {
        serial: Serial(wire::u32_at(reply, at)),
        surface: Surface(wire::u32_at(reply, at + kinds::SHOWN_SURFACE)),
        poc: wire::i32_at(reply, at + kinds::SHOWN_POC),
    }
}

// The event that stands at a place.
fn event_at(st: Reading, p: Section, reply: &[u8], at: usize) -> Event
    requires { at < 100000 }
    ensures { event_in result ≡ event_at st p reply.now at }
{
    match p {
        Section::Handed => Event::Hand(shown_at(st, reply, at)),
        Section::Thrown => Event::Throw(Serial(wire::u32_at(reply, at))),
        Section::Released => Event::Free(Surface(wire::u32_at(reply, at))),
    }
}

// How many bytes an event of this section has.
fn size(st: Reading, p: Section) -> usize
    ensures { (result ≡ size_of st p) × (result ≤ shown_width_in st) }
{
    match p {
        Section::Handed => shown_width(st) as usize,
        Section::Thrown => kinds::WORD,
        Section::Released => kinds::WORD,
    }
}

// Handed out: a picture of that serial waits, on that surface and with that POC.
fn may_hand(l: Lines, x: Shown) -> Result<(), Part>
    ensures { part_in result ≡ event_part (Hand x) (view l) }
{
    if !has_any(l, Ask::Waits(x.serial)) {
        return Err(Part::HandedNotWaiting);
    }
    if !has_any(l, Ask::WaitsAs(x)) {
        return Err(Part::HandedElsewhere);
    }
    Ok(())
}

// Thrown away: a picture of that serial waits.
fn may_throw(l: Lines, n: Serial) -> Result<(), Part>
    ensures { part_in result ≡ event_part (Throw n) (view l) }
{
    if !has_any(l, Ask::Waits(n)) {
        return Err(Part::ThrownNotWaiting);
    }
    Ok(())
}

// Released: something lies there, and what lies there no longer waits.
fn may_free(l: Lines, x: Surface) -> Result<(), Part>
    ensures { part_in result ≡ event_part (Free x) (view l) }
{
    if !has_any(l, Ask::Lies(x)) {
        return Err(Part::ReleasedNothing);
    }
    if has_any(l, Ask::WaitsAt(x)) {
        return Err(Part::ReleasedWaiting);
    }
    Ok(())
}

// Whether one event may happen, or the part that it breaks.
fn may_happen(l: Lines, e: Event) -> Result<(), Part>
    ensures { part_in result ≡ event_part (event_in e) (view l) }
{
    match e {
        Event::Hand(x) => may_hand(l, x),
        Event::Throw(n) => may_throw(l, n),
        Event::Free(x) => may_free(l, x),
    }
}

// The picture and the surface that a wrong event names: those handed out; the picture thrown away, and its surface if a
// line has it; the surface released, and the picture that waits there.
fn event_blame(l: Lines, e: Event) -> Blamed
    ensures { result ≡ event_blame (event_in e) (view l) }
{
    match e {
        Event::Hand(x) => Blamed::Both(x.serial, x.surface),
        Event::Throw(n) => found(l, Ask::Named(n), Blamed::Picture(n)),
        Event::Free(x) => found(l, Ask::WaitsAt(x), Blamed::Surface(x)),
    }
}

// The lines after one event.
fn after(l: Lines, e: Event) -> Lines
    ensures { Holds result (upon (event_in e) (view l)) }
{
    match e {
        Event::Hand(x) => change_all(l, Some(x.serial)),
        Event::Throw(n) => change_all(l, Some(n)),
        Event::Free(x) => freed(l, x),
    }
}

// The lines after n events of one section, one after the other, or the part that the first wrong one breaks, with what
// it breaks it with.
fn run(
    st: Reading,
    l: Lines,
    p: Section,
    reply: &[u8],
    at: usize,
    n: usize,
) -> Result<Lines, Broken>
    requires { Good l × ((n ≤ 255) × (at ≤ 30000)) }
    ensures { Tells (events_of st p n (drop at reply.now)) (view l) result }
{
    let step = size(st, p);
    let mut lines = l;
    let mut place = at;
    for _ in 0..n {
        let e = event_at(st, p, reply, place);
        if let Err(part) = may_happen(lines, e) {
            let blamed = event_blame(lines, e);
            return Err(Broken { part, blamed });
        }
        lines = after(lines, e);
        place += step;
    }
    Ok(lines)
}

// A count and as many events.
fn run_counted(st: Reading, l: Lines, p: Section, reply: &[u8], at: usize) -> Result<Lines, Broken>
    requires { Good l × (at < 30000) }
    ensures { Tells (counted st p (drop at reply.now)) (view l) result }
{
    let n = wire::byte(reply, at) as usize;
    run(st, l, p, reply, at + 1, n)
}

// The tail that stands at a place: "each picture handed out; .. serials thrown away; .. surfaces released".
pub(crate) fn tail(st: Reading, l: Lines, reply: &[u8], at: usize) -> Result<Lines, Broken>
    requires { Good l × (at < 20000) }
    ensures { Tells (events (read_tail st (drop at reply.now))) (view l) result }
{
    let shown = run_counted(st, l, Section::Handed, reply, at)?;
    let second = behind_shown(st, reply, at);
    let kept = run_counted(st, shown, Section::Thrown, reply, second)?;
    let third = behind(reply, second, kinds::WORD_WIDTH);
    run_counted(st, kept, Section::Released, reply, third)
}
