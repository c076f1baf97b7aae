// Files that are named by the program's arguments and read in blocks.
ghost use Rattle.std.specs.Prelude.{◌≡◌, ◌≤◌, length, pos, IfOk, IfSome};
ghost use Rattle.stream.specs.Files.{Opened, Fed, ended, failed, read_of, lessened, unread};

use std::env::FillError;
use std::fs::File;
use std::io;
use std::io::{Error, Read, Write};
use std::rt::{Env, Files};

// Room for the name of any file that the system can open.
pub const NAME: usize = 4096;

// What the system answers where a name is missing, too long, or no text.
const MISSING: i32 = 22;

const TOO_LONG: i32 = 36;

const NO_TEXT: i32 = 84;

// A file: how many of its bytes wait at the start of its buffer, and whether it has ended or could not be read. The
// program tells its files apart by the number, which is that of the source that they are read from.
#[derive(Clone, Copy)]
pub struct Feed {
    pub fd: i32,
    pub held: usize,
    pub ended: bool,
    pub failed: bool,
}

impl Feed {
    // Whether the last read brought nothing, at the end of the file or because it failed.
    pub fn ended(self) -> bool
        ensures { result ≡ ended self }
    {
        self.ended
    }

    // Whether the last read failed.
    pub fn failed(self) -> bool
        ensures { result ≡ failed self }
    {
        self.failed
    }
}

// A file that is open, its place among the program's arguments, and why the last read failed, if one did.
#[derive(Drop)]
pub struct Source<F> {
    fd: i32,
    file: F,
    why: Option<Error>,
}

// A file of which nothing was read yet.
pub fn unread(fd: i32) -> Feed
    ensures { result ≡ unread fd }
{
    Feed {
        fd,
        held: 0,
        ended: false,
        failed: false,
    }
}

// One read behind the bytes that wait. None is read at the end of the file, or where it can't be read; a buffer that is
// full counts as a file that can't be read, so that nothing rests on it. What is read is of the source's file, so the
// number is the source's.
pub fn read_on<F: Read>(source: &mut Source<F>, f: Feed, bytes: &mut [u8]) -> Feed
    ensures fed { Fed (read_of source.old.fd f) bytes.old result bytes.new }
    ensures same { source.new.fd ≡ source.old.fd }
{
    let read = crate::read_behind(&mut source.file, f.held, bytes);
    if let Err(e) = read {
        source.why = Some(e);
    }
    let held = read.unwrap_or(f.held);
    Feed {
        fd: source.fd,
        held,
        ended: held == f.held,
        failed: read.is_err(),
    }
}

// The bytes behind the first n wait now; none where no more than n waited.
pub fn without(f: Feed, n: usize) -> Feed
    ensures { result ≡ lessened f n }
{
    Feed {
        held: f.held.saturating_sub(n),
        ..f
    }
}

// Whether the program was started with n arguments behind its own name.
pub fn are_given<E: Env>(rt: &E, n: usize) -> bool {
    is_given(rt, n) & !is_given(rt, n.saturating_add(1))
}

fn is_given<E: Env>(rt: &E, i: usize) -> bool {
    !matches!(rt.arg(i, &mut []), Err(FillError::NotPresent))
}

// Puts an argument at the start of the buffer: how many bytes it has, or 0 where it is missing or does not fit.
pub fn name<E: Env>(rt: &E, i: usize, buf: &mut [u8]) -> usize
    ensures { result ≤ length buf.new }
{
    rt.arg(i, buf).unwrap_or(0)
}

// An argument, put at the start of the buffer, where it is there and fits.
pub fn argument<'a, E: Env>(rt: &E, i: usize, buf: &'a mut [u8]) -> Option<&'a [u8]>
    ensures { IfSome result (λ word. length word.now ≤ length buf.old) }
{
    let n = rt.arg(i, buf).ok()?;
    Some(&buf[..n])
}

// Opens the file that an argument names, or says why it can't.
pub fn open<R: Env + Files + Alloc, W: Write>(
    rt: &R,
    err: &mut W,
    i: usize,
    program: &[u8],
) -> io::Result<Option<Source<R::File>>>
    ensures { IfOk result (λ o. IfSome o (λ s. (s.fd ≡ pos i) × Opened s.fd)) }
{
    let Ok(fd) = i32::try_from(i) else {
        return nameless(rt, err, program, MISSING);
    };
    let mut path = [0u8; NAME];
    match rt.arg(i, &mut path) {
        Ok(n) => open_path(rt, err, fd, &path[..n], program),
        Err(FillError::NotPresent) => nameless(rt, err, program, MISSING),
        Err(FillError::TooLong) => nameless(rt, err, program, TOO_LONG),
    }
}

fn nameless<R: Files + Alloc, W: Write>(
    rt: &R,
    err: &mut W,
    program: &[u8],
    code: i32,
) -> io::Result<Option<Source<R::File>>>
    ensures { IfOk result (λ o. o ≡ None) }
{
    let why = Error::from_raw_os_error(code);
    say(rt, err, b"the file's name", program, &why)?;
    Ok(None)
}

fn open_path<R: Files + Alloc, W: Write>(
    rt: &R,
    err: &mut W,
    fd: i32,
    path: &[u8],
    program: &[u8],
) -> io::Result<Option<Source<R::File>>>
    ensures { IfOk result (λ o. IfSome o (λ s. s.fd ≡ fd)) }
{
    match open_text(rt, path) {
        Ok(file) => Ok(Some(Source {
            fd,
            file,
            why: None,
        })),
        Err(e) => {
            say(rt, err, path, program, &e)?;
            Ok(None)
        }
    }
}

// A name that is no UTF-8 names no file here.
fn open_text<R: Files>(rt: &R, path: &[u8]) -> io::Result<R::File> {
    let text = str::from_utf8(path).map_err(|_| Error::from_raw_os_error(NO_TEXT))?;
    File::open(rt, text)
}

// Says that a file can't be read: the program's name, the file's, and the system's words for the read that failed last.
pub fn unreadable<R: Alloc, W: Write, F>(
    rt: &R,
    err: &mut W,
    file: &Source<F>,
    path: &[u8],
    program: &[u8],
) -> io::Result<()> {
    let why = file
        .why
        .unwrap_or_else(|| Error::from_raw_os_error(crate::NO_ROOM));
    say(rt, err, path, program, &why)
}

// Says why a call for a file failed.
fn say<R: Alloc, W: Write>(
    rt: &R,
    err: &mut W,
    path: &[u8],
    program: &[u8],
    why: &Error,
) -> io::Result<()> {
    let text = why.to_string(rt.alloc())?;
    err.write_all(program)?;
    err.write_all(b": ")?;
    err.write_all(path)?;
    err.write_all(b": ")?;
    err.write_all(system_words(text.as_str()).as_bytes())?;
    err.write_all(b"\n")
}

// The system's words for an error, without the number that std puts behind them.
fn system_words(text: &str) -> &str {
    text.split_once(" (os error ")
        .map_or(text, |(words, _)| words)
}
