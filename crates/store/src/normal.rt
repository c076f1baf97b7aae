// Whether the words that a host lends are a store in the normal form: each place is written as its picture is, and
// behind those that are used there is none.
ghost use Rattle.std.specs.Prelude.{◌≡◌, ◌<◌};
ghost use Rattle.store.specs.Walks.{blank};
ghost use Rattle.store.specs.Decides.{Decides};
ghost use Rattle.store.specs.StoreWords.{words_at, picture_words, Neat, InOrder, NormalForm};

use crate::Store;
use crate::words::{PLACE, USED, flag_word, mark_word, picture_at};

// Whether a place is written as its picture is. A serial, a surface and a count are what their words are.
fn is_neat(store: &[u32; Store::WORDS], i: usize) -> bool
    requires { i < 16 }
    ensures { Decides result (Neat store.now i) }
{
    let at = PLACE * i;
    let p = picture_at(store, i);
    let of_poc = wire::bits(p.poc);
    let of_mark = mark_word(p.mark);
    let of_flag = flag_word(p.waiting);
    (store[at + 2] == of_poc) & (store[at + 3] == of_mark) & (store[at + 4] == of_flag)
}

// Whether a place is written as a place with no picture is: its six words are 0.
fn is_blank(store: &[u32; Store::WORDS], i: usize) -> bool
    requires { i < 16 }
    ensures { Decides result (words_at store.now i ≡ picture_words blank) }
{
    let at = PLACE * i;
    let names = (store[at] == 0) & (store[at + 1] == 0);
    let state = names & (store[at + 2] == 0) & (store[at + 3] == 0) & (store[at + 4] == 0);
    state & (store[at + 5] == 0)
}

// Whether a place is as it is in the normal form of a store of which the first n places are used.
fn in_order(store: &[u32; Store::WORDS], n: usize, i: usize) -> bool
    requires { i < 16 }
    ensures { Decides result (InOrder store.now n i) }
{
    if i < n {
        is_neat(store, i)
    } else {
        is_blank(store, i)
    }
}

// Whether the words are a store in the normal form. Any words may be given.
pub fn is_normal(store: &[u32; Store::WORDS]) -> bool
    ensures { Decides result (NormalForm store.now) }
{
    let n = store[USED] as usize;
    if Store::CAPACITY < n {
        return false;
    }
    for i in 0..Store::CAPACITY {
        if !in_order(store, n, i) {
            return false;
        }
    }
    true
}
