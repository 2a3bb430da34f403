// The monthly line sheet: its limits and answer numbers, the record of a line, and what a capture adds to one. What each count is of a
// whole capture is said in the crate sheet_rules, over the capture alone.
#![tactic(auto)]

ghost use Rattle.std.specs.Prelude.{◌≡◌};
ghost use Rattle.sheet.specs.Answers.{number_of};
ghost use Rattle.sheet.specs.Tallies.{fresh_tally};

// Lines of the sheet; a line number is below this.
pub const LINES: usize = 64;

// Counts of a line, in the order in which they are printed: octets before the first flag, flags, octets in reported segments, octets
// after the last flag, skipped octets between two flags; reports 10 to 14 and 16; DATA, DACK, repeats.
pub const COUNTS: usize = 14;

pub const BEFORE: usize = 0;

pub const FLAGS: usize = 1;

pub const IN_SEGMENTS: usize = 2;

pub const AFTER: usize = 3;

pub const SKIPPED: usize = 4;

pub const FRAMES: usize = 5;

pub const ABORTED: usize = 6;

pub const LONG: usize = 7;

pub const SHORT: usize = 8;

pub const BAD_CHECKS: usize = 9;

pub const BAD_PAIRS: usize = 10;

pub const DATA: usize = 11;

pub const DACK: usize = 12;

pub const REPEATS: usize = 13;

// The largest count of a line, of 32 bits; what a capture adds is counted up to one more, which is already too large for every line.
pub const MAX_COUNT: u64 = 4294967295;

pub const TOO_LARGE: u64 = MAX_COUNT + 1;

// The numbers given back (specs/Answers).
pub const NO_LINE: u8 = 50;

pub const COUNT_TOO_LARGE: u8 = 51;

// Why a capture was not counted for a line: by the number of the refusal by which nothing of it was counted, as no line of the sheet
// or of the table was meant, as a count would pass 32 bits.
#[derive(Clone, Copy, PartialEq, Eq, Debug)]
pub enum Refusal {
    Uncounted(u8),
    NoLine,
    CountTooLarge,
}

impl Refusal {
    // The number given back to C programs, and said by the program.
    pub fn number(self) -> u8
        ensures { result ≡ number_of self }
    {
        match self {
            Refusal::Uncounted(number) => number,
            Refusal::NoLine => NO_LINE,
            Refusal::CountTooLarge => COUNT_TOO_LARGE,
        }
    }
}

// What a capture adds: its counts, or the number of the refusal by which nothing was counted (6).
#[repr(C)]
#[derive(Clone, Copy)]
pub struct Counts {
    pub number: u8,
    pub counts: [u64; COUNTS],
}

// The record of a line in the lent table.
#[repr(C)]
#[derive(Clone, Copy)]
pub struct Tally {
    pub counts: [u32; COUNTS],
}

impl Tally {
    // Nothing is counted yet.
    pub fn new() -> Self
        ensures { result ≡ fresh_tally }
    {
        let counts = [0u32; COUNTS];
        Self { counts }
    }
}
