// KISS: what writer and reader share. The octets with a meaning on the line, the limits, and the numbers that are its own.
// Definitions: specs/Octets, specs/Limits, specs/Answers; a frame and a line of frames: specs/Frame.
#![tactic(auto)]

ghost use Rattle.std.specs.Prelude.{◌≡◌};
ghost use Rattle.kiss.specs.Octets.{escapes};
ghost use Rattle.kiss.specs.Refusal.{refusal_number};

use escapes::Escapes;

// TAPR's FEND, FESC, TFEND and TFESC.
pub const FLAG: u8 = 0xC0;

pub const ESCAPE: u8 = 0xDB;

pub const ESCAPED_FLAG: u8 = 0xDC;

pub const ESCAPED_ESCAPE: u8 = 0xDD;

// The type octet of a data frame of port 0.
pub const DATA_TYPE: u8 = 0x00;

// It stands before the payload.
pub const TYPE_SIZE: usize = 1;

// The octets of a segment that is a frame, escapes undone: type and payload.
pub const MIN_SEGMENT: usize = 2;

pub const MAX_SEGMENT: usize = 2561;

// The numbers given back (specs/Answers); QAFT has the others.
pub const BAD_ESCAPE: u8 = 60;

pub const SHORT: u8 = 61;

pub const LONG: u8 = 62;

pub const SKIPPED: u8 = 63;

pub const OUT_TOO_SMALL: u8 = 64;

// Why a writer or a reader refuses a call.
#[derive(Clone, Copy, Debug, PartialEq, Eq)]
pub enum Refusal {
    NoData,
    DataTooLong,
    OutTooSmall,
    BufferTooSmall,
    BadState,
}

impl Refusal {
    // The number given back for it: QAFT's, but for an out buffer that is too small.
    pub fn number(self) -> u8
        ensures { result ≡ refusal_number self }
    {
        match self {
            Refusal::NoData => qaft::NO_DATA,
            Refusal::DataTooLong => qaft::DATA_TOO_LONG,
            Refusal::OutTooSmall => OUT_TOO_SMALL,
            Refusal::BufferTooSmall => qaft::BUFFER_TOO_SMALL,
            Refusal::BadState => qaft::BAD_STATE,
        }
    }
}

impl From<Refusal> for u8 {
    ghost from_gives = { λ refusal n. n ≡ refusal_number refusal };

    fn from(refusal: Refusal) -> u8 {
        refusal.number()
    }
}

// The octets that are escaped: two, which stand there twice. Where many octets are escaped the writer goes without a branch; of a test
// of two octets alone the compiler makes one again.
#[tactic(auto, unfolding(crate::specs::Octets::escapes))]
pub fn escapes() -> Escapes
    ensures { result ≡ escapes }
{
    Escapes {
        flag: FLAG,
        escape: ESCAPE,
        others: true,
        third: FLAG,
        fourth: ESCAPE,
        behind_flag: ESCAPED_FLAG,
        behind_escape: ESCAPED_ESCAPE,
        behind_third: ESCAPED_FLAG,
        behind_fourth: ESCAPED_ESCAPE,
    }
}
