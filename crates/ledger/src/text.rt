// What the program says.
use paper::Blamed;
use std::io::Write;
use std::{fmt, io};
use watch::{Book, Broken};

// A number and the name of what is counted, with an s where the number is not 1. The name comes with the blank in front
// of it: so they are one piece for the writer.
#[derive(Clone, Copy)]
struct Count(u64, &'static str);

impl fmt::Display for Count {
    fn fmt<W: fmt::Write>(&self, f: &mut fmt::Formatter<W>) -> fmt::Result {
        let s = if self.0 == 1 { "" } else { "s" };
        write!(f, "{}{}{s}", self.0, self.1)
    }
}

// Which picture and surface are named, if any.
#[derive(Clone, Copy)]
struct Named(Blamed);

impl fmt::Display for Named {
    fn fmt<W: fmt::Write>(&self, f: &mut fmt::Formatter<W>) -> fmt::Result {
        match self.0 {
            Blamed::Nothing => Ok(()),
            Blamed::Picture(n) => write!(f, ": picture {}", n.0),
            Blamed::Surface(s) => write!(f, ": surface {}", s.0),
            Blamed::Both(n, s) => write!(f, ": picture {} on surface {}", n.0, s.0),
        }
    }
}

// The reply, counted from 1, that breaks a part, and what it does so with; `rest`: where the replies end within it, how
// many bytes of it are there, else 0.
pub(crate) fn broken<W: Write>(out: &mut W, number: u64, rest: usize, x: Broken) -> io::Result<()> {
    write!(out, "broken at reply {number}: ")?;
    if rest == 0 {
        write!(out, "{}", x.part)?;
    } else {
        let bytes = Count(rest as u64, " byte");
        write!(out, "the replies end within it, after {bytes}")?;
    }
    writeln!(out, " (part {}){}", x.part.number(), Named(x.blamed))
}

// The accounts of a recording that keeps demand 3; `rest`: how many bytes of a last record are there that is not whole,
// and has no reply.
pub(crate) fn kept<W: Write>(out: &mut W, b: Book, number: u64, rest: usize) -> io::Result<()> {
    let t = b.tally;
    let begun = Count(b.begun, " picture");
    write!(
        out,
        "kept: {begun} begun, {} handed out, {} thrown away, ",
        t.handed, t.thrown
    )?;
    write!(
        out,
        "{} current, {} waiting, ",
        watch::current(b),
        watch::waiting(b)
    )?;
    let held = Count(watch::surfaces(b) as u64, " surface");
    let lists = Count(t.lists, " list");
    let refused = Count(t.refused, " refusal");
    let exchanges = Count(number, " exchange");
    writeln!(out, "{held} held, {lists} checked, {refused}, {exchanges}")?;
    if rest != 0 {
        let bytes = Count(rest as u64, " byte");
        writeln!(
            out,
            "the records end with {bytes} of a record that is not whole"
        )?;
    }
    Ok(())
}
