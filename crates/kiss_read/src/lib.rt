// KISS: the chunk reader. The state and its names: specs/State; one octet: specs/Step; a call: specs/Read; the rules of reading:
// the crate kiss_rules; reports and their numbers: kiss_report. The loop over a chunk is the deframer's, which all framings share; what
// the reader hands over: specs/Scanned.
#![tactic(auto)]

ghost use Rattle.std.specs.Prelude.{◌≡◌, not, ◌<◌, ◌≤◌, length, Ok};
ghost use Rattle.kiss.specs.Limits.{max_segment};
ghost use Rattle.kiss_rules.specs.Rules.{verdict};
ghost use Rattle.kiss_read.specs.State.{fresh, opened, malformed};
ghost use Rattle.kiss_read.specs.Scanned.{rule, state_of, reader_of};
ghost use Rattle.kiss_read.specs.Answer.{answered};
ghost use Rattle.kiss_read.specs.Read.{scan_call, read};

use deframer::{Rule, State};
use kiss::Refusal;
use kiss_report::Report;
use reports::Answer;

#[repr(C)]
#[derive(Clone, Copy)]
pub struct Reader {
    pub synced: bool,
    pub pending: bool,
    pub count: usize,
    pub type_octet: u8,
    pub bad_escape: bool,
}

impl Reader {
    // The state before any flag.
    pub fn fresh() -> Self
        ensures { result ≡ fresh }
    {
        Self {
            synced: false,
            pending: false,
            count: 0,
            type_octet: 0,
            bad_escape: false,
        }
    }

    // Reads a chunk up to its first report. The caller hands on the rest of the chunk, from the octets taken on, to the
    // next call, with the state that the answer gives back and the same buffer. A refusal changes nothing lent, and the caller still
    // has the state.
    #[tactic(auto, unfolding(crate::specs::Read::read, crate::specs::Read::refusals, crate::specs::Read::refusal))]
    pub fn read(self, chunk: &[u8], buffer: &mut [u8]) -> Result<Answer<Report, Self>, Refusal>
        ensures value { answered self result ≡ (read self chunk.now buffer.old).answer }
        ensures buffer_after { buffer.new ≡ (read self chunk.now buffer.old).buffer }
    {
        if buffer.len() < kiss::MAX_SEGMENT {
            return Err(Refusal::BufferTooSmall);
        }
        if !self.well_formed() {
            return Err(Refusal::BadState);
        }
        Ok(self.scan(chunk, buffer))
    }

    // Whether the state is well formed.
    fn well_formed(self) -> bool
        ensures { result ≡ not (malformed self) }
    {
        rule().well_formed(State::from(self))
    }

    // The chunk's octets up to the first report.
    fn scan(self, chunk: &[u8], buffer: &mut [u8]) -> Answer<Report, Self>
        requires { max_segment ≤ length buffer.old }
        ensures value { answered self (Ok result) ≡ (scan_call self chunk.now buffer.old).answer }
        ensures buffer_after { buffer.new ≡ (scan_call self chunk.now buffer.old).buffer }
    {
        let scanned = deframer::scan(rule(), State::from(self), chunk, buffer);
        let Some(segment) = scanned.segment() else {
            return Answer {
                report: None,
                taken: scanned.taken,
                reader: reader_of(scanned.state),
            };
        };
        Answer {
            report: Some(report_on(segment)),
            taken: scanned.taken,
            reader: opened(),
        }
    }
}

// The state as the deframer has it.
impl From<Reader> for State {
    ghost from_gives = { λ reader s. s ≡ state_of reader };

    fn from(reader: Reader) -> State {
        State {
            synced: reader.synced,
            pending: reader.pending,
            bad: reader.bad_escape,
            count: reader.count,
            check: u16::from(reader.type_octet),
        }
    }
}

// A state of the deframer. What it keeps along the way is the first octet; that it is one is asked here, so this is no From.
fn reader_of(s: State) -> Reader
    requires { s.check < 256 }
    ensures { result ≡ reader_of s }
{
    Reader {
        synced: s.synced,
        pending: s.pending,
        count: s.count,
        type_octet: s.check as u8,
        bad_escape: s.bad,
    }
}

// The state behind a flag, which opens a segment.
fn opened() -> Reader
    ensures { result ≡ opened }
{
    Reader {
        synced: true,
        ..Reader::fresh()
    }
}

// How the deframer is to read: strictly, and keeping the type octet.
pub fn rule() -> Rule
    ensures { result ≡ rule }
{
    Rule {
        escapes: kiss::escapes(),
        mask: 0,
        strict: true,
        cap: kiss::MAX_SEGMENT as u16,
        check: deframer::FIRST,
    }
}

// What a closed segment is reported as, by the state in which the flag found it; first that applies.
#[tactic(auto, using(kiss::proofs::Octets::data_zero), unfolding(kiss_rules::specs::Rules::verdict))]
pub fn report_on(s: State) -> Report
    ensures { result ≡ verdict s.pending s.bad s.count s.check }
{
    if s.pending {
        return Report::BadEscape;
    }
    if s.bad {
        return Report::BadEscape;
    }
    let n = s.count;
    if n < kiss::MIN_SEGMENT {
        return Report::Short;
    }
    if kiss::MAX_SEGMENT < n {
        return Report::Long;
    }
    // port 0 and command 0 are the type octet 0
    if s.check != 0 {
        return Report::Skipped;
    }
    Report::Frame(n - 1)
}
