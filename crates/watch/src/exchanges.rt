// Exchanges in two runs of bytes: each whole record with the next whole reply.
ghost use Rattle.watch.specs.Pairs.{WatchesAll};

use crate::blamed::blame;
use crate::{Book, Broken, hear};

// The book after some exchanges, how many bytes their records and their replies have, how many of them break nothing,
// and the part that the last one breaks, if it does, with the picture and the surface that it does so with.
#[derive(Clone, Copy)]
pub struct Paired {
    pub book: Book,
    pub taken: usize,
    pub answered: usize,
    pub pairs: usize,
    pub broken: Option<Broken>,
}

// Hears each whole record with the next whole reply, up to the first exchange that breaks a part.
pub fn hear_all(b: Book, records: &[u8], replies: &[u8]) -> Paired
    ensures { WatchesAll b records.now replies.now result }
{
    let mut book = b;
    let mut taken = 0;
    let mut answered = 0;
    let mut pairs = 0;
    // Kept: two places go on, each by the size of what stands there, so no range or iterator gives them.
    loop {
        let Some(n) = format::whole(&records[taken..]) else {
            break;
        };
        let Some(m) = format::whole(&replies[answered..]) else {
            break;
        };
        let record = &records[taken..taken + n];
        let reply = &replies[answered..answered + m];
        taken += n;
        answered += m;
        match hear(book, record, reply) {
            Ok(next) => book = next,
            Err(part) => {
                let blamed = blame(book, record, reply);
                return Paired {
                    book,
                    taken,
                    answered,
                    pairs,
                    broken: Some(Broken { part, blamed }),
                };
            }
        }
        pairs += 1;
    }
    Paired {
        book,
        taken,
        answered,
        pairs,
        broken: None,
    }
}
