// Bytes that wait between reads: read on behind them, and what was taken cut off in front; the files that they come
// from, and text.
#![tactic(auto)]

pub mod files;
pub mod text;

ghost use Rattle.std.specs.Prelude.{◌≡◌, min, length};
ghost use Rattle.stream.specs.Turns.{Fed, read_as, shifted};

use std::io;
use std::io::{Error, Read as Source, Write};

// What the system answers where there is no room to read on.
const NO_ROOM: i32 = 105;

// One read behind the `held` bytes that wait: how many wait now. None is read at the end of the input. It fails where
// the input can't be read, and where there is no room behind the bytes that wait.
pub fn read_behind<R: Source>(source: &mut R, held: usize, bytes: &mut [u8]) -> io::Result<usize>
    ensures { Fed held bytes.old (read_as held result) bytes.new }
{
    if bytes.len() <= held {
        return Err(Error::from_raw_os_error(NO_ROOM));
    }
    let n = source.read(&mut bytes[held..])?;
    Ok(held + n)
}

// Moves the bytes from `from` to `end`, or to the last where `end` is past it, to the start.
pub fn shift(bytes: &mut [u8], from: usize, end: usize)
    ensures { bytes.new ≡ shifted bytes.old from end }
{
    let last = end.min(bytes.len());
    if from < last {
        bytes.copy_within(from..last, 0);
    }
}

// How many bytes were handed over to the writer, and whether they could be written.
// Kept: the count is promised where the writer failed too, and an Err would not carry it.
#[derive(Clone, Copy)]
pub struct Handed {
    pub bytes: usize,
    pub wrote: bool,
}

// Hands the first n bytes over to the writer, or all where there are no more. What reaches it is not said.
pub fn write_front<W: Write>(sink: &mut W, bytes: &[u8], n: usize) -> Handed
    ensures { result.bytes ≡ min n (length bytes.now) }
{
    let last = n.min(bytes.len());
    let wrote = sink.write_all(&bytes[..last]).is_ok();
    Handed { bytes: last, wrote }
}
