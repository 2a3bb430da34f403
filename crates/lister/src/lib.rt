// A listing of a captured line, of QAFT or of KISS, made chunk after chunk: what stands between whoever reads the capture and
// whoever writes the text out. A call on a chunk puts the lines of its reports at the front of a lent buffer (specs/Lines). That
// the lines of all chunks, between the heading and the last line, are the listing of the whole capture is a theorem of the crate
// listing_laws.
#![tactic(auto)]

ghost use Rattle.std.specs.Prelude.{◌≡◌, ◌+◌, ◌≤◌, length};
ghost use Rattle.std.proofs.lemmas.List.Edits.{sets};
ghost use Rattle.qaft.specs.Limits.{max_data, max_segment};
ghost use Rattle.listing.specs.Line.{max_line};
ghost use Rattle.listing_ends.specs.Ends.{short_line};
ghost use Rattle.text.specs.Room.{text_into, text_end};
ghost use Rattle.lister.specs.Answer.{answered};
ghost use Rattle.lister.specs.Entries.{flag_of, data_from, entry_length, rule_of, entry_of, line_of};
ghost use Rattle.lister.specs.Lines.{fresh_lister, gathered, progress_of, list, last_line};

use capture::Octets;
use deframer::{Rule, State};
use listing::Entry;
use qaft::Refusal;

mod entry;

// Octets are counted up to here.
const MOST_OCTETS: u64 = u64::MAX;

// What goes from chunk to chunk: the framing, and the level of QAFT; the state of reading, the number of reports, the counts of
// octets before and after the flags.
#[derive(Clone, Copy)]
pub struct Lister {
    pub kiss: bool,
    pub level: u8,
    pub state: State,
    pub reports: u64,
    pub counts: Octets,
}

// The answer to a call: the octets of the chunk taken, the octets put at the front of the out buffer, and what goes into the next call.
#[derive(Clone, Copy)]
pub struct Listed {
    pub taken: usize,
    pub length: usize,
    pub lister: Lister,
}

// What the loop over a chunk's reports comes to.
#[derive(Drop)]
struct Progress {
    taken: usize,
    state: State,
    reports: u64,
    behind: usize,
}

impl Lister {
    // Nothing is listed yet.
    pub fn new(kiss: bool, level: u8) -> Self
        ensures { result ≡ fresh_lister kiss level }
    {
        Self {
            kiss,
            level,
            state: State {
                synced: false,
                pending: false,
                bad: false,
                count: 0,
                check: 0,
            },
            reports: 0,
            counts: Octets::new(),
        }
    }

    // Lists a chunk, up to its end or as far as `out` has room for every line: hand the rest, from `taken` on, to the next
    // call. `out` is too small where it is shorter than `listing::MAX_LINE`; `buffer`, which holds a segment from call to call, where it is
    // shorter than `qaft::MAX_SEGMENT`. A refusal takes and puts nothing, and the caller still has the lister.
    #[tactic(auto, unfolding(crate::specs::Lines::list, crate::specs::Lines::refusals, crate::specs::Lines::refusal))]
    pub fn list(self, chunk: &[u8], buffer: &mut [u8], out: &mut [u8]) -> Result<Listed, Refusal>
        ensures value { answered self result ≡ (list self chunk.now buffer.old out.old).answer }
        ensures buffer_after { buffer.new ≡ (list self chunk.now buffer.old out.old).buffer }
        ensures out_after { out.new ≡ (list self chunk.now buffer.old out.old).out }
    {
        if qaft::MAX_LEVEL < self.level {
            return Err(Refusal::BadLevel);
        }
        if out.len() < listing::MAX_LINE {
            return Err(Refusal::OutTooSmall);
        }
        if buffer.len() < qaft::MAX_SEGMENT {
            return Err(Refusal::BufferTooSmall);
        }
        let progress = put_lines(self, chunk, buffer, out);
        let read = &chunk[..progress.taken];
        Ok(Listed {
            taken: progress.taken,
            length: progress.behind,
            lister: Lister {
                state: progress.state,
                reports: progress.reports,
                counts: self.counts.add(source_flag(self.kiss), MOST_OCTETS, read),
                ..self
            },
        })
    }

    // Puts the last line at the front of `out`; its length. Where `out` has no room for such a line, nothing: 0.
    pub fn put_end(self, out: &mut [u8]) -> usize
        ensures value { result ≡ text_end short_line (last_line self) (length out.old) 0 }
        ensures out_after { out.new ≡ text_into short_line (last_line self) out.old 0 }
    {
        let c = self.counts;
        listing_ends::put_end(self.reports, c.before, c.after, out, 0)
    }

    // What a closed segment is listed as, by the state in which the flag found it.
    fn entry(self, s: State) -> Entry
        ensures { result ≡ entry_of self.kiss self.level s }
    {
        if self.kiss {
            return entry::of_kiss(kiss_read::report_on(s));
        }
        entry::of_qaft(qaft_read::report_on(qaft::SUM, s))
    }

    // Puts the line of the report behind `reports` others at index `at` of `out`, which has room for every line; the index behind
    // it. The octets of a frame stand in `buffer`.
    fn put(self, reports: u64, entry: Entry, buffer: &[u8], out: &mut [u8], at: usize) -> usize
        requires { (entry_length entry ≤ max_data) × (max_segment ≤ length buffer.now) × (at + max_line ≤ length out.old) }
        ensures value { result ≡ at + length (line_of self.kiss reports entry buffer.now) }
        ensures out_after { out.new ≡ sets out.old at (line_of self.kiss reports entry buffer.now) }
    {
        let from = data_from(self.kiss);
        let end = from + entry::length(entry);
        listing::put_report(reports.wrapping_add(1), entry, &buffer[from..end], out, at)
    }
}

// Report after report, while there is room for every line.
fn put_lines(l: Lister, chunk: &[u8], buffer: &mut [u8], out: &mut [u8]) -> Progress
    requires { (max_line ≤ length out.old) × (max_segment ≤ length buffer.old) }
    ensures value { result ≡ progress_of (gathered l chunk.now buffer.old out.old) }
    ensures buffer_after { buffer.new ≡ (gathered l chunk.now buffer.old out.old).buffer }
    ensures out_after { out.new ≡ (gathered l chunk.now buffer.old out.old).made.out }
{
    let last = out.len() - listing::MAX_LINE;
    let rule = source_rule(l.kiss, l.level);
    let mut state = l.state;
    let mut n = l.reports;
    let mut i = 0;
    let mut at = 0;
    while at <= last {
        let scanned = deframer::scan(rule, state, &chunk[i..], buffer);
        i += scanned.taken;
        let Some(segment) = scanned.segment() else {
            return Progress {
                taken: i,
                state: scanned.state,
                reports: n,
                behind: at,
            };
        };
        at = l.put(n, l.entry(segment), buffer, out, at);
        n = n.wrapping_add(1);
        state = rule.opened();
    }
    Progress {
        taken: i,
        state,
        reports: n,
        behind: at,
    }
}

// How the shared loop is to read the capture.
fn source_rule(kiss: bool, level: u8) -> Rule
    ensures { result ≡ rule_of kiss level }
{
    if kiss {
        return kiss_read::rule();
    }
    qaft_read::rule(level, qaft::SUM)
}

// The octet that cuts it.
fn source_flag(kiss: bool) -> u8
    ensures { result ≡ flag_of kiss }
{
    if kiss {
        return kiss::FLAG;
    }
    qaft::FLAG
}

// Where the octets of a frame begin in the buffer: behind KISS's type octet.
fn data_from(kiss: bool) -> usize
    ensures { result ≡ data_from kiss }
{
    if kiss {
        return kiss::TYPE_SIZE;
    }
    0
}
