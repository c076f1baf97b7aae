// Lists of a reply, written into a lent buffer: the sets of a begin, reference lists, and the parts of a tail.
ghost use Rattle.std.specs.Prelude.{◌≡◌, ◌+◌, ◌*◌, ◌≤◌, length, drop};
ghost use Rattle.paper.specs.Ledger.{read_tail};
ghost use Rattle.stream.specs.Text.{Wrote};
ghost use Rattle.show.specs.Text.{serial_text};
ghost use Rattle.show.specs.Lists.{shown_text, shown_at, tail_text};
ghost use Rattle.show.specs.Items.{width_of, most_of, step_of, item_text, more_text, list_text};

use format::{behind_shown, kinds, shown_width};
use paper::Reading;
use store::Store;
use stream::text;

// What a list is of: numbers, serials, of which one may be that of a missing picture, or pictures handed out.
#[derive(Clone, Copy)]
pub(crate) enum Item {
    Number,
    Serial,
    Shown(Reading),
}

impl Item {
    // How many bytes of a reply one has.
    fn width(self) -> usize
        ensures { (result ≡ width_of self) × (result ≤ 12) }
    {
        match self {
            Item::Number => kinds::WORD,
            Item::Serial => kinds::WORD,
            Item::Shown(st) => shown_width(st) as usize,
        }
    }

    // The one at a place of the reply.
    fn put(self, d: &mut [u8], at: usize, reply: &[u8], from: usize) -> usize
        requires { (from ≤ 20000) × (at + most_of self ≤ length d.old) }
        ensures { Wrote d.old at (item_text self reply.now from) (most_of self) result
            d.new }
    {
        match self {
            Item::Number => text::put_u32(d, at, wire::u32_at(reply, from)),
            Item::Serial => put_serial(d, at, wire::u32_at(reply, from)),
            Item::Shown(st) => put_shown(d, at, st, reply, from),
        }
    }
}

// "4,294,967,295 stands for a missing picture".
#[tactic(auto, unfolding(crate::specs::Text::serial_text))]
fn put_serial(d: &mut [u8], at: usize, x: u32) -> usize
    requires { at + 10 ≤ length d.old }
    ensures { Wrote d.old at (serial_text x) 10 result d.new }
{
    if x == Store::MISSING {
        return text::put(d, at, b"missing");
    }
    text::put_u32(d, at, x)
}

// A picture handed out, "(serial u32, surface u32, POC i32)".
fn put_shown(d: &mut [u8], at: usize, st: Reading, reply: &[u8], from: usize) -> usize
    requires { (from ≤ 20000) × (at + 33 ≤ length d.old) }
    ensures { Wrote d.old at (shown_text (shown_at st reply.now from)) 33 result
        d.new }
{
    let a = text::put_u32(d, at, wire::u32_at(reply, from));
    let b = text::put(d, a, b":");
    let c = text::put_u32(d, b, wire::u32_at(reply, from + kinds::SHOWN_SURFACE));
    let e = text::put(d, c, b":");
    text::put_signed(d, e, wire::u32_at(reply, from + kinds::SHOWN_POC))
}

// The n items from a place of the reply on, each behind a comma.
fn put_more(d: &mut [u8], at: usize, item: Item, reply: &[u8], from: usize, n: usize) -> usize
    requires { (n ≤ 255) × (from ≤ 15000) × (at + step_of item * n ≤ length d.old) }
    ensures { Wrote d.old at (more_text item reply.now from n) (step_of item * n) result
        d.new }
{
    let mut end = at;
    for i in 0..n {
        let behind = text::put(d, end, b",");
        end = item.put(d, behind, reply, from + item.width() * i);
    }
    end
}

// A list of n items behind its name; nothing where it is empty.
pub(crate) fn put_list(
    d: &mut [u8],
    at: usize,
    name: &[u8],
    item: Item,
    reply: &[u8],
    from: usize,
    n: usize,
) -> usize
    requires { (n ≤ 255) × (from ≤ 12000) × (at + length name.now + step_of item * n ≤ length d.old) }
    ensures { Wrote d.old at (list_text item name.now reply.now from n)
        (length name.now + step_of item * n) result d.new }
{
    if n == 0 {
        return at;
    }
    let a = text::put(d, at, name);
    let b = item.put(d, a, reply, from);
    put_more(d, b, item, reply, from + item.width(), n - 1)
}

// A tail: "u8 count and .. each picture handed out; u8 count and serials thrown away; u8 count and surfaces released".
pub(crate) fn put_tail(d: &mut [u8], at: usize, st: Reading, reply: &[u8], from: usize) -> usize
    requires { (from ≤ 6000) × (at + 14306 ≤ length d.old) }
    ensures { Wrote d.old at (tail_text (read_tail st (drop from reply.now))) 14306 result
        d.new }
{
    let handed = wire::byte(reply, from) as usize;
    let a = put_list(d, at, b" handed=", Item::Shown(st), reply, from + 1, handed);
    let b = behind_shown(st, reply, from);
    let thrown = wire::byte(reply, b) as usize;
    let c = put_list(d, a, b" thrown=", Item::Number, reply, b + 1, thrown);
    let e = b + 1 + kinds::WORD * thrown;
    let released = wire::byte(reply, e) as usize;
    put_list(d, c, b" released=", Item::Number, reply, e + 1, released)
}
