// What a reader answers, whatever the framing: a report has a number and shows octets of the reader's buffer; a call that is not
// refused comes to a report, or to none where its chunk is used up. Definitions: specs/Reports.
#![tactic(auto)]

ghost use Rattle.std.specs.Prelude.{◌≡◌, ℕ};
ghost use Rattle.framing.specs.Reports.{shown};
ghost use Rattle.reports.specs.Reports.{number_of, length_of};

// What a closed segment is reported as.
pub trait Shows: Copy {
    ghost number: { Self → ℕ };

    ghost length: { Self → ℕ };

    ghost FROM: { ℕ };

    // Where in the reader's buffer the octets begin that a frame shows.
    const FROM: usize;

    // The number given back for a report.
    fn number(self) -> u8
        ensures { result ≡ number self };

    // How many octets it shows: 0 unless it is a frame.
    fn length(self) -> usize
        ensures { result ≡ length self };

    // These octets, as a part of the reader's buffer; none unless it is a frame.
    fn octets(self, buffer: &[u8]) -> &[u8]
        ensures { result.now ≡ shown buffer.now FROM (length self) }
    {
        part(buffer, Self::FROM, self.length())
    }
}

// The answer to a call that is not refused: its first report, the octets taken, and the state for the next call.
#[derive(Clone, Copy)]
pub struct Answer<R, S> {
    pub report: Option<R>,
    pub taken: usize,
    pub reader: S,
}

impl<R: Shows, S: Copy> Answer<R, S> {
    // The number given back: the report's, or that of a chunk used up without one.
    pub fn number(self) -> u8
        ensures { result ≡ number_of R.number self.report }
    {
        match self.report {
            Some(report) => report.number(),
            None => qaft::USED_UP,
        }
    }

    // How many octets it shows: 0 unless a frame is reported.
    pub fn length(self) -> usize
        ensures { result ≡ length_of R.length self.report }
    {
        match self.report {
            Some(report) => report.length(),
            None => 0,
        }
    }

    // The octets of the frame that is reported; none unless one is.
    pub fn octets(self, buffer: &[u8]) -> &[u8]
        ensures { result.now ≡ shown buffer.now R.FROM (length_of R.length self.report) }
    {
        part(buffer, R::FROM, self.length())
    }
}

// n octets of a buffer from a place on, or none where it has fewer.
#[tactic(auto, unfolding(framing::specs::Reports::shown))]
fn part(buffer: &[u8], from: usize, n: usize) -> &[u8]
    ensures { result.now ≡ shown buffer.now from n }
{
    if from <= buffer.len() && n <= buffer.len() - from {
        &buffer[from..from + n]
    } else {
        &buffer[..0]
    }
}
