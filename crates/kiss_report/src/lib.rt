// KISS: what a closed segment is reported as: its number, and the payload shown. Definitions: specs/Answer; what a call comes to:
// specs/Outcome.
#![tactic(auto)]

ghost use Rattle.kiss.specs.Limits.{type_size};
ghost use Rattle.kiss_report.specs.Answer.{report_number, report_length};

use reports::Shows;

// What a closed segment is reported as; a frame has its number of payload octets.
#[derive(Clone, Copy, Debug, PartialEq, Eq)]
pub enum Report {
    Frame(usize),
    BadEscape,
    Short,
    Long,
    Skipped,
}

impl Shows for Report {
    ghost number = { report_number };

    ghost length = { report_length };

    ghost FROM = { type_size };

    // The type octet, which is not shown, stands before a frame's payload.
    const FROM: usize = kiss::TYPE_SIZE;

    fn number(self) -> u8 {
        match self {
            Report::Frame(_) => qaft::FRAME,
            Report::BadEscape => kiss::BAD_ESCAPE,
            Report::Short => kiss::SHORT,
            Report::Long => kiss::LONG,
            Report::Skipped => kiss::SKIPPED,
        }
    }

    fn length(self) -> usize {
        match self {
            Report::Frame(n) => n,
            _ => 0,
        }
    }
}
