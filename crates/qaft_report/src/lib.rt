// QAFT: what a closed segment is reported as: its number, and the data shown. Definitions: specs/Answer; what a call comes to:
// specs/Outcome.
#![tactic(auto)]

ghost use Rattle.qaft_report.specs.Answer.{report_number, report_length};

use reports::Shows;

// What a closed segment is reported as; a frame has its number of data octets.
#[derive(Clone, Copy, Debug, PartialEq, Eq)]
pub enum Report {
    Frame(usize),
    Aborted,
    Long,
    Short,
    BadCheck,
    BadPair,
}

impl Shows for Report {
    ghost number = { report_number };

    ghost length = { report_length };

    ghost FROM = { 0 };

    // A frame's data begin with the segment, and the check behind them is not shown.
    const FROM: usize = 0;

    fn number(self) -> u8 {
        match self {
            Report::Frame(_) => qaft::FRAME,
            Report::Aborted => qaft::ABORTED,
            Report::Long => qaft::LONG,
            Report::Short => qaft::SHORT,
            Report::BadCheck => qaft::BAD_CHECK,
            Report::BadPair => qaft::BAD_PAIR,
        }
    }

    fn length(self) -> usize {
        match self {
            Report::Frame(n) => n,
            _ => 0,
        }
    }
}
