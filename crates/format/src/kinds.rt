// Records and replies in bytes, as document 01 has them: their kinds, the places of their parts and the widths of
// these. Each number is written once.
ghost use Rattle.std.specs.Prelude.{◌≡◌};
ghost use Rattle.paper.specs.Kinds.{reply_to};
ghost use Rattle.format.specs.Kind.{number_of, Numbered, RepliesTo};

// The kinds of records: "1 configure", "2 begin", "3 lists", "4 finish, 5 drain, 6 discard, 7 end of sequence,
// 8 abandon".
#[derive(Clone, Copy, PartialEq, Eq, Debug)]
pub enum Kind {
    Configure = 1,
    Begin,
    Lists,
    Finish,
    Drain,
    Discard,
    End,
    Abandon,
}

// The numbers of the kinds, as the enum above has them.
const CONFIGURE: u16 = Kind::Configure as u16;

const BEGIN: u16 = Kind::Begin as u16;

const LISTS: u16 = Kind::Lists as u16;

const FINISH: u16 = Kind::Finish as u16;

const DRAIN: u16 = Kind::Drain as u16;

const DISCARD: u16 = Kind::Discard as u16;

const END: u16 = Kind::End as u16;

const ABANDON: u16 = Kind::Abandon as u16;

// A number that no kind of record has.
#[derive(Clone, Copy, PartialEq, Eq, Debug)]
pub struct UnknownKind(pub u16);

impl TryFrom<u16> for Kind {
    type Error = UnknownKind;

    ghost try_from_gives = { Numbered };

    fn try_from(number: u16) -> Result<Self, UnknownKind> {
        match number {
            CONFIGURE => Ok(Kind::Configure),
            BEGIN => Ok(Kind::Begin),
            LISTS => Ok(Kind::Lists),
            FINISH => Ok(Kind::Finish),
            DRAIN => Ok(Kind::Drain),
            DISCARD => Ok(Kind::Discard),
            END => Ok(Kind::End),
            ABANDON => Ok(Kind::Abandon),
            _ => Err(UnknownKind(number)),
        }
    }
}

impl Kind {
    // The number that stands for the kind in a record.
    pub fn number(self) -> u16
        ensures { result ≡ number_of self }
    {
        self as u16
    }

    // The number that stands for it in a reply: "kind 256 + record kind".
    pub fn reply(self) -> u16
        ensures { result ≡ reply_to (number_of self) }
    {
        REPLY + self.number()
    }

    // The kind whose replies have this number.
    pub fn of_reply(number: u16) -> Option<Self>
        ensures { RepliesTo number result }
    {
        Kind::try_from(number.checked_sub(REPLY)?).ok()
    }
}

// What is added to a record's kind in its reply: "kind 256 + record kind".
pub const REPLY: u16 = 256;

// Number 13: "its reply kind is 511".
pub const MALFORMED: u16 = 511;

// "u16 body length, u16 kind, body": the places of the kind and of the body.
pub const KIND_PLACE: usize = 2;

pub const BODY_PLACE: usize = 4;

// Number 13: "body over 512 bytes".
pub const BODY_LIMIT: usize = 512;

// A reply's body "starts with a u16 refusal number". A refusal ends behind it; the rest of an accepted reply begins
// there.
pub const NUMBER_PLACE: usize = BODY_PLACE;

pub const REST_PLACE: usize = NUMBER_PLACE + 2;

// The width of a serial, of a surface and of a POC, and that of a picture handed out, "(serial u32, surface u32, POC
// i32)".
pub const WORD_WIDTH: u8 = 4;

pub const SHOWN_WIDTH: u8 = 3 * WORD_WIDTH;

// The same where places are told.
pub const WORD: usize = WORD_WIDTH as usize;

pub const SHOWN: usize = SHOWN_WIDTH as usize;

// Where surface and POC of a picture handed out stand behind its serial.
pub const SHOWN_SURFACE: usize = WORD;

pub const SHOWN_POC: usize = 2 * WORD;

// A configure: "k u8, capacity u8, buffering u8, reorder u8, latency u16".
pub const K_PLACE: usize = BODY_PLACE;

pub const CAPACITY_PLACE: usize = K_PLACE + 1;

pub const BUFFERING_PLACE: usize = CAPACITY_PLACE + 1;

pub const REORDER_PLACE: usize = BUFFERING_PLACE + 1;

pub const LATENCY_PLACE: usize = REORDER_PLACE + 1;

pub const CONFIGURE_LENGTH: usize = 6;

// A begin: "NAL type u8, temporal id u8, flags u8, lsb u16, surface u32, counts neg, pos, lt u8 each", and the entries
// behind them.
pub const NAL_PLACE: usize = BODY_PLACE;

pub const TID_PLACE: usize = NAL_PLACE + 1;

pub const BEGIN_FLAGS_PLACE: usize = TID_PLACE + 1;

pub const LSB_PLACE: usize = BEGIN_FLAGS_PLACE + 1;

pub const SURFACE_PLACE: usize = LSB_PLACE + 2;

pub const NEG_PLACE: usize = SURFACE_PLACE + WORD;

pub const POS_PLACE: usize = NEG_PLACE + 1;

pub const LT_PLACE: usize = POS_PLACE + 1;

pub const ENTRIES_PLACE: usize = LT_PLACE + 1;

pub const BEGIN_LENGTH: usize = 12;

// An entry, "delta i32, used u8" or "lsb u16, flags u8, cycle u32": where its parts stand in it, and its width.
pub const ENTRY_USED: usize = WORD;

pub const SHORT_WIDTH: usize = ENTRY_USED + 1;

pub const ENTRY_FLAGS: usize = 2;

pub const ENTRY_CYCLE: usize = ENTRY_FLAGS + 1;

pub const LONG_WIDTH: usize = ENTRY_CYCLE + WORD;

// A lists record: "slice type u8, flags u8, a0 u8, a1 u8", and the entry bytes behind them.
pub const SLICE_PLACE: usize = BODY_PLACE;

pub const SLICE_FLAGS_PLACE: usize = SLICE_PLACE + 1;

pub const ACTIVE0_PLACE: usize = SLICE_FLAGS_PLACE + 1;

pub const ACTIVE1_PLACE: usize = ACTIVE0_PLACE + 1;

pub const ENTRY_BYTES_PLACE: usize = ACTIVE1_PLACE + 1;

pub const SLICE_LENGTH: usize = 4;

// What an accepted begin says: "POC i32, flags u8, .. serial u32, five u8 counts (StCurrBefore, StCurrAfter, StFoll,
// LtCurr, LtFoll), their members in that order as u32 serials, the tail".
pub const POC_PLACE: usize = REST_PLACE;

pub const FLAGS_PLACE: usize = POC_PLACE + WORD;

pub const SERIAL_PLACE: usize = FLAGS_PLACE + 1;

pub const BEFORE_PLACE: usize = SERIAL_PLACE + WORD;

pub const AFTER_PLACE: usize = BEFORE_PLACE + 1;

pub const FOLL_PLACE: usize = AFTER_PLACE + 1;

pub const LT_CURR_PLACE: usize = FOLL_PLACE + 1;

pub const LT_FOLL_PLACE: usize = LT_CURR_PLACE + 1;

pub const MEMBERS_PLACE: usize = LT_FOLL_PLACE + 1;

// What accepted lists say: "two u8 lengths, the u32 serials".
pub const LENGTH0_PLACE: usize = REST_PLACE;

pub const LENGTH1_PLACE: usize = LENGTH0_PLACE + 1;

pub const LISTS_PLACE: usize = LENGTH1_PLACE + 1;
