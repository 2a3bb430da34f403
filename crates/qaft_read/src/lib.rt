// QAFT: the chunk reader. The state and its names: specs/State; one octet: specs/Step; a call: specs/Read; the rules of reading:
// the crate qaft_rules; reports and their numbers: qaft_report. The loop over a chunk is the deframer's, which all framings share;
// what the reader hands over: specs/Scanned.
#![tactic(auto)]

ghost use Rattle.std.specs.Prelude.{◌≡◌, not, ◌≤◌, length, Ok};
ghost use Rattle.qaft.specs.Check.{check_by};
ghost use Rattle.qaft.specs.Limits.{max_segment_of};
ghost use Rattle.qaft_rules.specs.Rules.{verdict};
ghost use Rattle.qaft_read.specs.State.{fresh, opened, malformed};
ghost use Rattle.qaft_read.specs.Scanned.{running_check, rule, state_of, reader_at};
ghost use Rattle.qaft_read.specs.Answer.{answered};
ghost use Rattle.qaft_read.specs.Read.{scan_call, read};

use deframer::{Rule, State};
use qaft::Refusal;
use qaft_report::Report;
use reports::Answer;

#[repr(C)]
#[derive(Clone, Copy)]
pub struct Reader {
    pub level: u8,
    pub check_kind: u8,
    pub synced: bool,
    pub pending: bool,
    pub bad_pair: bool,
    pub check: u16,
    pub count: usize,
}

impl Reader {
    // The state before any flag.
    pub fn fresh(level: u8, check_kind: u8) -> Self
        ensures { result ≡ fresh level check_kind }
    {
        Self {
            level,
            check_kind,
            synced: false,
            pending: false,
            count: 0,
            check: blank(check_kind),
            bad_pair: false,
        }
    }

    // Reads a chunk up to its first report. The caller hands on the rest of the chunk, from the octets taken on, to the
    // next call, with the state that the answer gives back and the same buffer. A refusal changes nothing lent, and the caller still
    // has the state.
    #[tactic(auto, unfolding(crate::specs::Read::read, crate::specs::Read::refusals, crate::specs::Read::refusal))]
    pub fn read(self, chunk: &[u8], buffer: &mut [u8]) -> Result<Answer<Report, Self>, Refusal>
        ensures value { answered self result ≡ (read self chunk.now buffer.old).answer }
        ensures buffer_after { buffer.new ≡ (read self chunk.now buffer.old).buffer }
    {
        if qaft::MAX_LEVEL < self.level {
            return Err(Refusal::BadLevel);
        }
        if qaft::MAX_KIND < self.check_kind {
            return Err(Refusal::BadKind);
        }
        if buffer.len() < qaft::max_segment(self.check_kind) {
            return Err(Refusal::BufferTooSmall);
        }
        if !self.well_formed() {
            return Err(Refusal::BadState);
        }
        Ok(self.scan(chunk, buffer))
    }

    // Whether the state is well formed.
    fn well_formed(self) -> bool
        ensures { result ≡ not (malformed self) }
    {
        rule(self.level, self.check_kind).well_formed(State::from(self))
    }

    // The chunk's octets up to the first report.
    fn scan(self, chunk: &[u8], buffer: &mut [u8]) -> Answer<Report, Self>
        requires { max_segment_of self.check_kind ≤ length buffer.old }
        ensures value { answered self (Ok result) ≡ (scan_call self chunk.now buffer.old).answer }
        ensures buffer_after { buffer.new ≡ (scan_call self chunk.now buffer.old).buffer }
    {
        let r = rule(self.level, self.check_kind);
        let scanned = deframer::scan(r, State::from(self), chunk, buffer);
        let Some(segment) = scanned.segment() else {
            return Answer {
                report: None,
                taken: scanned.taken,
                reader: self.at(scanned.state),
            };
        };
        Answer {
            report: Some(report_on(self.check_kind, segment)),
            taken: scanned.taken,
            reader: self.opened(),
        }
    }

    // A state of the deframer at the reader's level, with its kind of check.
    fn at(self, s: State) -> Self
        ensures { result ≡ reader_at self.level self.check_kind s }
    {
        Reader {
            synced: s.synced,
            pending: s.pending,
            bad_pair: s.bad,
            check: s.check,
            count: s.count,
            ..self
        }
    }

    // The state behind a flag, which opens a segment.
    fn opened(self) -> Self
        ensures { result ≡ opened self }
    {
        Reader {
            synced: true,
            ..Reader::fresh(self.level, self.check_kind)
        }
    }
}

// The state as the deframer has it, which knows no level and no kind of check.
impl From<Reader> for State {
    ghost from_gives = { λ reader s. s ≡ state_of reader };

    fn from(reader: Reader) -> State {
        State {
            synced: reader.synced,
            pending: reader.pending,
            bad: reader.bad_pair,
            count: reader.count,
            check: reader.check,
        }
    }
}

// How the deframer is to read at a level, with the check of a kind: raw octets that the level escapes are its flag, its escape, and
// flow control, which is skipped; a pair that stands for no such octet is bad.
#[tactic(auto, using(qaft::proofs::Check::check_size_bounds))]
pub fn rule(level: u8, check_kind: u8) -> Rule
    ensures { result ≡ rule level check_kind }
{
    Rule {
        escapes: qaft::escapes(level),
        mask: qaft::MASK,
        strict: true,
        cap: qaft::max_segment(check_kind) as u16,
        check: running_check(check_kind),
    }
}

// The deframer's word for a kind of check.
fn running_check(kind: u8) -> u8
    ensures { result ≡ running_check kind }
{
    if kind == qaft::FCS {
        return deframer::REGISTER;
    }
    deframer::SUM
}

// The running check before any octet.
fn blank(kind: u8) -> u16
    ensures { result ≡ (check_by kind).blank }
{
    if kind == qaft::FCS {
        return fcs::PRESET;
    }
    0
}

// The running check after data and their check.
fn good(kind: u8) -> u16
    ensures { result ≡ (check_by kind).good }
{
    if kind == qaft::FCS {
        return fcs::RESIDUE;
    }
    0
}

// What a closed segment is reported as, by the state in which the flag found it; first that applies.
#[tactic(auto, using(qaft::proofs::Check::check_size_bounds), unfolding(qaft_rules::specs::Rules::verdict))]
pub fn report_on(check_kind: u8, s: State) -> Report
    ensures { result ≡ verdict check_kind s.pending s.bad s.count s.check }
{
    if s.pending {
        return Report::Aborted;
    }
    if s.bad {
        return Report::BadPair;
    }
    let n = s.count;
    let size = qaft::check_size(check_kind);
    if qaft::MAX_DATA + size < n {
        return Report::Long;
    }
    if n < 1 + size {
        return Report::Short;
    }
    if s.check != good(check_kind) {
        return Report::BadCheck;
    }
    Report::Frame(n - size)
}
