// AFP: limits, answer numbers and parts of a frame, and the refusals of length and data offset, which every reader of frames has. Definitions:
// specs/Limits, Answers, Refused, Layout, Sizes.
#![tactic(auto)]

ghost use Rattle.std.specs.Prelude.{◌≡◌};
ghost use Rattle.common.specs.FirstRefusal.{first_refusal};
ghost use Rattle.afp.specs.Layout.{part_of};
ghost use Rattle.afp.specs.Refused.{refused};
ghost use Rattle.afp.specs.Sizes.{length_refusals, offset_refusals};

// Limits of a frame.
pub const MIN_FRAME: usize = 14;

pub const MAX_FRAME: usize = 2560;

pub const MIN_HEADER: usize = 12;

pub const MAX_HEADER: usize = 254;

// The header's octets beside station fields and supplementary header: five before them, and the header sum.
pub const FIXED_SIZE: usize = stations::FIELDS_AT + 1;

// The most that station fields and supplementary header take together.
pub const MAX_VARIABLE: usize = MAX_HEADER - FIXED_SIZE;

pub const MAX_DATA: usize = 2304;

pub const VERSION: u8 = 1;

pub const FIRST_RESERVED: u8 = 0xFE;

// The numbers given back (specs/Answers): the reader's refusals in their order, then the writer's own.
pub const DONE: u8 = 0;

pub const BAD_LENGTH: u8 = 30;

pub const BAD_CHECK: u8 = 31;

pub const BAD_VERSION: u8 = 32;

pub const BAD_PROTOCOL: u8 = 33;

pub const BAD_OFFSET: u8 = 34;

pub const BAD_STATIONS: u8 = 35;

pub const BAD_NEXT: u8 = 36;

pub const BAD_NEXT_SUM: u8 = 37;

pub const BAD_SUPPLEMENTARY: u8 = 38;

pub const BAD_HEADER_SUM: u8 = 39;

pub const BAD_DATA: u8 = 40;

pub const OUT_TOO_SMALL: u8 = 41;

// Why a frame, or the parts of one, are refused.
#[derive(Clone, Copy, Debug, PartialEq, Eq)]
pub enum Refusal {
    BadLength,
    BadCheck,
    BadVersion,
    BadProtocol,
    BadOffset,
    BadStations,
    BadNext,
    BadNextSum,
    BadSupplementary,
    BadHeaderSum,
    BadData,
    OutTooSmall,
}

// Its number, which C programs are given.
impl From<Refusal> for u8 {
    ghost use Rattle.std.specs.Prelude.{◌≡◌};
    ghost use Rattle.afp.specs.Refused.{number_of};

    ghost from_gives = { λ refusal number. number ≡ number_of refusal };

    fn from(refusal: Refusal) -> u8 {
        match refusal {
            Refusal::BadLength => BAD_LENGTH,
            Refusal::BadCheck => BAD_CHECK,
            Refusal::BadVersion => BAD_VERSION,
            Refusal::BadProtocol => BAD_PROTOCOL,
            Refusal::BadOffset => BAD_OFFSET,
            Refusal::BadStations => BAD_STATIONS,
            Refusal::BadNext => BAD_NEXT,
            Refusal::BadNextSum => BAD_NEXT_SUM,
            Refusal::BadSupplementary => BAD_SUPPLEMENTARY,
            Refusal::BadHeaderSum => BAD_HEADER_SUM,
            Refusal::BadData => BAD_DATA,
            Refusal::OutTooSmall => OUT_TOO_SMALL,
        }
    }
}

// A part of a frame.
#[repr(C)]
#[derive(Clone, Copy)]
pub struct Part {
    pub place: usize,
    pub size: usize,
}

pub const NO_PART: Part = Part { place: 0, size: 0 };

// The octets of a part of a frame; what lies behind the frame's end is left out.
pub fn octets_of(frame: &[u8], part: Part) -> &[u8]
    ensures { result.now ≡ part_of part frame.now }
{
    let Part { place, size } = part;
    if frame.len() <= place {
        return &frame[..0];
    }
    let behind = &frame[place..];
    if behind.len() < size {
        behind
    } else {
        &behind[..size]
    }
}

// The refusal of a frame's length.
pub fn length_refusal(length: usize) -> Result<(), Refusal>
    ensures { refused result ≡ first_refusal (length_refusals length) }
{
    if (MIN_FRAME..=MAX_FRAME).contains(&length) {
        Ok(())
    } else {
        Err(Refusal::BadLength)
    }
}

// The refusal of the data offset, octet 3, in a frame of this length: the two check octets stand behind the header.
pub fn offset_refusal(octet: u8, length: usize) -> Result<(), Refusal>
    ensures { refused result ≡ first_refusal (offset_refusals octet length) }
{
    let offset = usize::from(octet);
    if (MIN_HEADER..=MAX_HEADER).contains(&offset) && offset + 2 <= length {
        Ok(())
    } else {
        Err(Refusal::BadOffset)
    }
}
