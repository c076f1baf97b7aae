// One pair of replies: how many bytes each has, where they differ, and the line that says so.
ghost use Rattle.std.specs.Prelude.{◌≡◌, true, ◌+◌, ◌*◌, ◌/◌, ◌≤◌, length, drop, SomeIff};
ghost use Rattle.stream.specs.Text.{Wrote};
ghost use Rattle.compare.specs.Lines.{first_place};
ghost use Rattle.compare.specs.Pairs.{reply_size, ready, goes, pair_text};

use stream::text;

// What waits of one file: its bytes, and whether it has ended behind them.
#[derive(Clone, Copy)]
pub(crate) struct Waiting<'a> {
    pub(crate) bytes: &'a [u8],
    pub(crate) ended: bool,
}

impl<'a> Waiting<'a> {
    // What is left behind the first n bytes.
    pub(crate) fn behind(self, n: usize) -> Waiting<'a>
        requires { n ≤ length self.bytes.now }
        ensures { (result.bytes.now ≡ drop n self.entry.bytes.now) × (result.ended ≡ self.entry.ended) }
    {
        Waiting {
            bytes: &self.bytes[n..],
            ended: self.ended,
        }
    }

    // The size of the first reply. Where the file has ended, what is left is its last, of 0 bytes where nothing is left.
    // None: the reply is not all there yet.
    pub(crate) fn reply_size(self) -> Option<usize>
        ensures { SomeIff result (ready self.entry.ended (reply_size self.entry.ended self.entry.bytes.now) ≡ true)
            (reply_size self.entry.ended self.entry.bytes.now) }
    {
        match format::whole(self.bytes) {
            None if self.ended => Some(self.bytes.len()),
            size => size,
        }
    }
}

// The sizes of the next pair, 0 where a file has no more replies. None: a file has to be read on before, no reply is
// left in either, or there is no number for the pair.
pub(crate) fn next_pair(number: u64, first: Waiting, second: Waiting) -> Option<(usize, usize)>
    ensures { SomeIff result (goes number first.entry.ended first.entry.bytes.now second.entry.ended second.entry.bytes.now ≡ true)
        (reply_size first.entry.ended first.entry.bytes.now, reply_size second.entry.ended second.entry.bytes.now) }
{
    let n = first.reply_size()?;
    let m = second.reply_size()?;
    if ((n > 0) | (m > 0)) & (number < u64::MAX) {
        Some((n, m))
    } else {
        None
    }
}

// How many bytes are compared in one step: for the machine, a piece of eight is a number.
const PIECE: usize = 8;

// How many bytes are equal in front, in whole pieces.
fn equal_front(a: &[u8], b: &[u8]) -> usize
    ensures pieces { result ≡ first_place a.now b.now / 8 * 8 }
    ensures within { (result ≤ length a.now) × (result ≤ length b.now) }
{
    let (first, _) = a.as_chunks::<PIECE>();
    let (second, _) = b.as_chunks::<PIECE>();
    let pieces = first
        .iter()
        .zip(second.iter())
        .position(|(p, q)| p != q)
        .unwrap_or(first.len().min(second.len()));
    pieces * PIECE
}

// The first place at which two replies differ, or the length of the shorter where they agree as far as both go. What
// is equal in front is stepped over in pieces, and the few bytes left one by one. Both replies are cut to one length
// first, so that no step tests two lengths.
pub(crate) fn first_place(a: &[u8], b: &[u8]) -> usize
    ensures { result ≡ first_place a.now b.now }
{
    let both = a.len().min(b.len());
    let (a, b) = (&a[..both], &b[..both]);
    let near = equal_front(a, b);
    let left = a[near..]
        .iter()
        .zip(b[near..].iter())
        .position(|(x, y)| x != y)
        .unwrap_or(both - near);
    near + left
}

// The line of a pair, or nothing where the replies are equal, as most are. A file that has no more replies gives no bytes.
pub(crate) fn put_line(out: &mut [u8], at: usize, number: u64, a: &[u8], b: &[u8]) -> usize
    requires { at + 49 ≤ length out.old }
    ensures { Wrote out.old at (pair_text number a.now b.now) 49 result
        out.new }
{
    let p = first_place(a, b);
    if (p == a.len()) & (p == b.len()) {
        return at;
    }
    let e = text::put_u64(out, at, number);
    if a.len() == 0 {
        return text::put(out, e, b" only second\n");
    }
    if b.len() == 0 {
        return text::put(out, e, b" only first\n");
    }
    let f = text::put(out, e, b" differ ");
    let g = text::put_u64(out, f, p as u64);
    text::put(out, g, b"\n")
}
