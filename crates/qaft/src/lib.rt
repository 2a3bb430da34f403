// QAFT: what writer and reader share. The octets with a meaning on the line, the check kinds, the limits, which octets a level
// escapes, and the check. Definitions: specs/Escape, specs/Limits, specs/Check; a frame and a line of frames: specs/Frame.
#![tactic(auto)]

ghost use Rattle.std.specs.Prelude.{◌≡◌};
ghost use Rattle.qaft.specs.Escape.{escapes_of};
ghost use Rattle.qaft.specs.Check.{check_octet, check_pair};
ghost use Rattle.qaft.specs.Refusal.{refusal_number};
ghost use Rattle.qaft.specs.Limits.{check_size, max_segment_of};

use escapes::Escapes;

pub const FLAG: u8 = 0x7E;

pub const ESCAPE: u8 = 0x7D;

// Flow control of the serial line.
pub const XON: u8 = 0x11;

pub const XOFF: u8 = 0x13;

// What an octet is combined with, by exclusive or, behind an escape.
pub const MASK: u8 = 0x20;

pub const MAX_LEVEL: u8 = 1;

// The check kinds: one octet from the sum of the data (QAFT), or the check sequence of ISO 3309.
pub const SUM: u8 = 0;

pub const FCS: u8 = 1;

pub const MAX_KIND: u8 = 1;

pub const MAX_DATA: usize = 2560;

// The octets of a check.
pub const SUM_SIZE: usize = 1;

pub const FCS_SIZE: usize = 2;

// The most octets of a segment that is a QAFT frame, escapes undone: data and check octet.
pub const MAX_SEGMENT: usize = MAX_DATA + SUM_SIZE;

// The numbers given back (specs/Answers).
pub const DONE: u8 = 0;

pub const NO_DATA: u8 = 1;

pub const DATA_TOO_LONG: u8 = 2;

pub const OUT_TOO_SMALL: u8 = 3;

pub const BUFFER_TOO_SMALL: u8 = 4;

pub const BAD_STATE: u8 = 5;

pub const BAD_LEVEL: u8 = 6;

pub const BAD_KIND: u8 = 7;

pub const FRAME: u8 = 10;

pub const ABORTED: u8 = 11;

pub const LONG: u8 = 12;

pub const SHORT: u8 = 13;

pub const BAD_CHECK: u8 = 14;

pub const USED_UP: u8 = 15;

pub const BAD_PAIR: u8 = 16;

// Why a writer or a reader refuses a call.
#[derive(Clone, Copy, Debug, PartialEq, Eq)]
pub enum Refusal {
    NoData,
    DataTooLong,
    OutTooSmall,
    BufferTooSmall,
    BadState,
    BadLevel,
    BadKind,
}

impl Refusal {
    // The number given back for it.
    pub fn number(self) -> u8
        ensures { result ≡ refusal_number self }
    {
        match self {
            Refusal::NoData => NO_DATA,
            Refusal::DataTooLong => DATA_TOO_LONG,
            Refusal::OutTooSmall => OUT_TOO_SMALL,
            Refusal::BufferTooSmall => BUFFER_TOO_SMALL,
            Refusal::BadState => BAD_STATE,
            Refusal::BadLevel => BAD_LEVEL,
            Refusal::BadKind => BAD_KIND,
        }
    }
}

impl From<Refusal> for u8 {
    ghost from_gives = { λ refusal n. n ≡ refusal_number refusal };

    fn from(refusal: Refusal) -> u8 {
        refusal.number()
    }
}

// The octets that a level escapes.
#[tactic(auto, unfolding(crate::specs::Escape::escapes_of))]
pub fn escapes(level: u8) -> Escapes
    ensures { result ≡ escapes_of level }
{
    Escapes {
        flag: FLAG,
        escape: ESCAPE,
        others: level == 1,
        third: XON,
        fourth: XOFF,
        behind_flag: FLAG ^ MASK,
        behind_escape: ESCAPE ^ MASK,
        behind_third: XON ^ MASK,
        behind_fourth: XOFF ^ MASK,
    }
}

// The check octet of a frame's data: the two's complement of their sum modulo 256.
#[tactic(auto, unfolding(crate::specs::Check::check_octet))]
pub fn check_octet(octets: &[u8]) -> u8
    ensures { result ≡ check_octet octets.now }
{
    octets::sum(octets).wrapping_neg()
}

// The check octets of a frame's data in two places, of which the first `check_size` are meant; the other is 0. Of the check sequence the
// low octet comes first.
#[tactic(auto, unfolding(crate::specs::Check::check_pair))]
pub fn check_octets(kind: u8, octets: &[u8]) -> [u8; 2]
    ensures { result ≡ check_pair kind octets.now }
{
    if kind == FCS {
        return fcs::check_sequence(octets).to_le_bytes();
    }
    [check_octet(octets), 0]
}

// How many check octets a kind has.
pub fn check_size(kind: u8) -> usize
    ensures { result ≡ check_size kind }
{
    if kind == FCS {
        return FCS_SIZE;
    }
    SUM_SIZE
}

// The most octets of a segment that is a frame, escapes undone: data and check.
#[tactic(auto, using(crate::proofs::Check::check_size_bounds))]
pub fn max_segment(kind: u8) -> usize
    ensures { result ≡ max_segment_of kind }
{
    MAX_DATA + check_size(kind)
}
