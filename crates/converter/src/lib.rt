// A capture of one framing as a line of the other, chunk after chunk: what stands between whoever reads the capture and whoever
// writes the line. A call on a chunk puts the frames that it closes at the front of a lent buffer (specs/Convert). That the octets
// of all calls are the line of the capture's frames is a theorem of the crate conversion_laws.
#![tactic(auto)]

ghost use Rattle.std.specs.Prelude.{◌≡◌, ◌≤◌, length, Ok};
ghost use Rattle.common.specs.Buffer.{with_front};
ghost use Rattle.qaft.specs.Limits.{max_level, max_data, max_segment, max_frame};
ghost use Rattle.converter.specs.Answer.{refusal_number, answered};
ghost use Rattle.converter.specs.Gist.{gist_of_qaft, gist_of_kiss, gist_length, gist_of, rule_of, text_by};
ghost use Rattle.converter.specs.Convert.{counted, fresh_converter, too_small, later, call_of, gathered, convert};

use deframer::{Rule, State};

// The longest frame of either framing has room here: QAFT's.
pub const MAX_FRAME: usize = 2 * qaft::MAX_SEGMENT + 2;

// What a report is to a conversion: a frame with its number of octets, a frame of another port or command, any other.
#[derive(Clone, Copy)]
pub enum Gist {
    Frame(usize),
    Skipped,
    Other,
}

// What was made so far: whether a frame was written, so that the line stands at a flag; frames, frames of another port or command, and
// other reports.
#[derive(Clone, Copy)]
pub struct Tally {
    pub at_flag: bool,
    pub frames: u64,
    pub skipped: u64,
    pub others: u64,
}

// What goes from chunk to chunk: which way, and the level of the QAFT side; the state of reading; what was made so far.
#[derive(Clone, Copy)]
pub struct Converter {
    pub to_kiss: bool,
    pub level: u8,
    pub state: State,
    pub tally: Tally,
}

// The answer to a call: the octets of the chunk taken, the octets put at the front of the out buffer, and what goes into the next call.
#[derive(Clone, Copy)]
pub struct Converted {
    pub taken: usize,
    pub length: usize,
    pub converter: Converter,
}

// Why a call is refused. An out buffer that is too small has another number to KISS than to QAFT.
#[derive(Clone, Copy, Debug, PartialEq, Eq)]
pub enum Refusal {
    BadLevel,
    KissOutTooSmall,
    QaftOutTooSmall,
    BufferTooSmall,
}

impl Refusal {
    // The number given back for it.
    pub fn number(self) -> u8
        ensures { result ≡ refusal_number self }
    {
        match self {
            Refusal::BadLevel => qaft::BAD_LEVEL,
            Refusal::KissOutTooSmall => kiss::OUT_TOO_SMALL,
            Refusal::QaftOutTooSmall => qaft::OUT_TOO_SMALL,
            Refusal::BufferTooSmall => qaft::BUFFER_TOO_SMALL,
        }
    }
}

impl Gist {
    // How many octets are written of it: those of a frame.
    fn length(self) -> usize
        ensures { result ≡ gist_length self }
    {
        match self {
            Gist::Frame(n) => n,
            Gist::Skipped | Gist::Other => 0,
        }
    }
}

impl From<qaft_report::Report> for Gist {
    ghost from_gives = { λ report gist. gist ≡ gist_of_qaft report };

    fn from(report: qaft_report::Report) -> Gist {
        match report {
            qaft_report::Report::Frame(n) => Gist::Frame(n),
            qaft_report::Report::Aborted
            | qaft_report::Report::Long
            | qaft_report::Report::Short
            | qaft_report::Report::BadCheck
            | qaft_report::Report::BadPair => Gist::Other,
        }
    }
}

impl From<kiss_report::Report> for Gist {
    ghost from_gives = { λ report gist. gist ≡ gist_of_kiss report };

    fn from(report: kiss_report::Report) -> Gist {
        match report {
            kiss_report::Report::Frame(n) => Gist::Frame(n),
            kiss_report::Report::BadEscape
            | kiss_report::Report::Short
            | kiss_report::Report::Long => Gist::Other,
            kiss_report::Report::Skipped => Gist::Skipped,
        }
    }
}

impl Tally {
    // The same with one more report.
    fn with(self, gist: Gist) -> Tally
        ensures { result ≡ counted self gist }
    {
        match gist {
            Gist::Frame(_) => Tally {
                at_flag: true,
                frames: self.frames.wrapping_add(1),
                ..self
            },
            Gist::Skipped => Tally {
                skipped: self.skipped.wrapping_add(1),
                ..self
            },
            Gist::Other => Tally {
                others: self.others.wrapping_add(1),
                ..self
            },
        }
    }
}

impl Converter {
    // Nothing is converted yet.
    pub fn new(to_kiss: bool, level: u8) -> Self
        ensures { result ≡ fresh_converter to_kiss level }
    {
        Self {
            to_kiss,
            level,
            state: State {
                synced: false,
                pending: false,
                bad: false,
                count: 0,
                check: 0,
            },
            tally: Tally {
                at_flag: false,
                frames: 0,
                skipped: 0,
                others: 0,
            },
        }
    }

    // Converts a chunk, up to its end or as far as `out` has room for every frame: hand the rest, from `taken` on, to the next
    // call. `out` is too small where it is shorter than `MAX_FRAME`; `buffer`, which holds a segment from call to call, where it is shorter
    // than `qaft::MAX_SEGMENT`. A refusal takes and puts nothing, and the caller still has the converter.
    #[tactic(auto, unfolding(crate::specs::Convert::convert, crate::specs::Convert::refusals, crate::specs::Convert::refusal))]
    pub fn convert(
        self,
        chunk: &[u8],
        buffer: &mut [u8],
        out: &mut [u8],
    ) -> Result<Converted, Refusal>
        ensures value { answered self result ≡ (convert self chunk.now buffer.old out.old).answer }
        ensures buffer_after { buffer.new ≡ (convert self chunk.now buffer.old out.old).buffer }
        ensures out_after { out.new ≡ (convert self chunk.now buffer.old out.old).out }
    {
        if qaft::MAX_LEVEL < self.level {
            return Err(Refusal::BadLevel);
        }
        if out.len() < MAX_FRAME {
            return Err(too_small(self.to_kiss));
        }
        if buffer.len() < qaft::MAX_SEGMENT {
            return Err(Refusal::BufferTooSmall);
        }
        Ok(put_frames(self, chunk, buffer, out))
    }

    // What a closed segment is to the conversion, by the state in which the flag found it.
    fn gist(self, s: State) -> Gist
        ensures { result ≡ gist_of self.to_kiss self.level s }
    {
        if self.to_kiss {
            return Gist::from(qaft_read::report_on(qaft::SUM, s));
        }
        Gist::from(kiss_read::report_on(s))
    }

    // Puts the frame of n octets, which stand in `buffer`, at the front of `out`, which has room for every frame; its length. No octets:
    // nothing.
    fn put(self, at_flag: bool, n: usize, buffer: &[u8], out: &mut [u8]) -> usize
        requires { (self.level ≤ max_level) × (n ≤ max_data) × (max_segment ≤ length buffer.now) × (max_frame ≤ length out.old) }
        ensures value { result ≡ length (text_by self.to_kiss self.level at_flag n buffer.now) }
        ensures out_after { out.new ≡ with_front (text_by self.to_kiss self.level at_flag n buffer.now) out.old }
    {
        if n == 0 {
            return 0;
        }
        if self.to_kiss {
            return kiss_write::write_frame(at_flag, &buffer[..n], out).unwrap_or(0);
        }
        let end = n + 1;
        qaft_write::write_frame(self.level, qaft::SUM, at_flag, &buffer[1..end], out).unwrap_or(0)
    }

    // What goes into the next call.
    fn later(self, state: State, tally: Tally) -> Converter
        ensures { result ≡ later self state tally }
    {
        Converter {
            state,
            tally,
            ..self
        }
    }
}

// Report after report, while there is room for every frame.
fn put_frames(c: Converter, chunk: &[u8], buffer: &mut [u8], out: &mut [u8]) -> Converted
    requires { (c.level ≤ max_level) × (max_frame ≤ length out.old) × (max_segment ≤ length buffer.old) }
    ensures value { answered c (Ok result) ≡ (call_of c (gathered c chunk.now buffer.old out.old)).answer }
    ensures buffer_after { buffer.new ≡ (call_of c (gathered c chunk.now buffer.old out.old)).buffer }
    ensures out_after { out.new ≡ (call_of c (gathered c chunk.now buffer.old out.old)).out }
{
    let last = out.len() - MAX_FRAME;
    let rule = source_rule(c.to_kiss, c.level);
    let mut state = c.state;
    let mut tally = c.tally;
    let mut i = 0;
    let mut at = 0;
    while at <= last {
        let scanned = deframer::scan(rule, state, &chunk[i..], buffer);
        i += scanned.taken;
        let Some(segment) = scanned.segment() else {
            return Converted {
                taken: i,
                length: at,
                converter: c.later(scanned.state, tally),
            };
        };
        let gist = c.gist(segment);
        at += c.put(tally.at_flag, gist.length(), buffer, &mut out[at..]);
        tally = tally.with(gist);
        state = rule.opened();
    }
    Converted {
        taken: i,
        length: at,
        converter: c.later(state, tally),
    }
}

// Why an out buffer that is too small is refused.
fn too_small(to_kiss: bool) -> Refusal
    ensures { refusal_number result ≡ too_small to_kiss }
{
    if to_kiss {
        return Refusal::KissOutTooSmall;
    }
    Refusal::QaftOutTooSmall
}

// How the deframer is to read the capture. The lister has a choice like it, for no crate that both stand on knows both readers.
fn source_rule(to_kiss: bool, level: u8) -> Rule
    ensures { result ≡ rule_of to_kiss level }
{
    if to_kiss {
        return qaft_read::rule(level, qaft::SUM);
    }
    kiss_read::rule()
}
