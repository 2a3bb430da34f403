// What a captured line adds to its record of the line sheet, counted chunk after chunk: a capture is never held whole (specs/Count). That
// the counts of all chunks are those of the whole capture is a theorem of the crate sheet_laws.
#![tactic(auto)]

ghost use Rattle.std.specs.Prelude.{◌≡◌, ◌≤◌, length};
ghost use Rattle.qaft.specs.Limits.{max_segment};
ghost use Rattle.sheet_counter.specs.Answer.{answered};
ghost use Rattle.sheet_counter.specs.Count.{fresh_counter, gathered, progress_of, count, counts_in, with_report};

use capture::Octets;
use deframer::State;
use qaft::Refusal;
use qaft_report::Report;
use reports::Shows;
use sheet::Counts;
use sheet_found::Found;
use sheet_octets::RawOctets;

// What goes from chunk to chunk: the level, the state of reading, octets, reports and packets.
#[derive(Clone, Copy)]
pub struct Counter {
    pub level: u8,
    pub state: State,
    pub octets: RawOctets,
    pub found: Found,
}

// What the loop over a chunk's reports comes to.
#[derive(Drop)]
struct Progress {
    state: State,
    found: Found,
}

impl Counter {
    // Nothing is counted yet.
    pub fn new(level: u8) -> Self
        ensures { result ≡ fresh_counter level }
    {
        Self {
            level,
            state: State {
                synced: false,
                pending: false,
                bad: false,
                count: 0,
                check: 0,
            },
            octets: RawOctets {
                kept: Octets::new(),
                skipped: Octets::new(),
            },
            found: Found::new(),
        }
    }

    // Counts a chunk to its end, and gives what goes into the next call. `buffer` holds a segment from call to call: it is too small where
    // it is shorter than `qaft::MAX_SEGMENT`. A refusal counts nothing, and the caller still has the counter.
    #[tactic(auto, unfolding(crate::specs::Count::count, crate::specs::Count::refusals, crate::specs::Count::refusal))]
    pub fn count(self, chunk: &[u8], buffer: &mut [u8]) -> Result<Self, Refusal>
        ensures value { answered self result ≡ (count self chunk.now buffer.old).answer }
        ensures buffer_after { buffer.new ≡ (count self chunk.now buffer.old).buffer }
    {
        if qaft::MAX_LEVEL < self.level {
            return Err(Refusal::BadLevel);
        }
        if buffer.len() < qaft::MAX_SEGMENT {
            return Err(Refusal::BufferTooSmall);
        }
        let progress = count_reports(self, chunk, buffer);
        Ok(Counter {
            state: progress.state,
            octets: self.octets.add(self.level, chunk),
            found: progress.found,
            ..self
        })
    }

    // What the chunks so far add to a line. Before the first flag and after the last every octet counts.
    pub fn counts(self) -> Counts
        ensures { result ≡ counts_in self }
    {
        let RawOctets { kept, skipped } = self.octets;
        let f = self.found;
        Counts {
            number: qaft::DONE,
            counts: [
                counter::add(sheet::TOO_LARGE, kept.before, skipped.before),
                kept.flags,
                kept.between,
                counter::add(sheet::TOO_LARGE, kept.after, skipped.after),
                skipped.between,
                f.frames,
                f.aborted,
                f.long,
                f.short,
                f.bad_checks,
                f.bad_pairs,
                f.data_packets,
                f.dack_packets,
                f.repeats,
            ],
        }
    }
}

// Report after report, to the end of the chunk.
fn count_reports(c: Counter, chunk: &[u8], buffer: &mut [u8]) -> Progress
    requires { max_segment ≤ length buffer.old }
    ensures value { result ≡ progress_of (gathered c chunk.now buffer.old) }
    ensures buffer_after { buffer.new ≡ (gathered c chunk.now buffer.old).buffer }
{
    let rule = qaft_read::rule(c.level, qaft::SUM);
    let mut state = c.state;
    let mut found = c.found;
    let mut i = 0;
    while i < chunk.len() {
        let scanned = deframer::scan(rule, state, &chunk[i..], buffer);
        i += scanned.taken;
        let Some(segment) = scanned.segment() else {
            return Progress {
                state: scanned.state,
                found,
            };
        };
        found = with_report(found, qaft_read::report_on(qaft::SUM, segment), buffer);
        state = rule.opened();
    }
    Progress { state, found }
}

// With a report whose octets stand in the buffer.
fn with_report(found: Found, report: Report, buffer: &[u8]) -> Found
    ensures { result ≡ with_report found report buffer.now }
{
    found.with(report, report.octets(buffer))
}
