// Octets of a segment that stand for themselves come in runs, mostly long ones. A run is found, stored and checked as a whole,
// many octets at a time, and only the octets between runs take a step each. What a run is and does: specs/Run of framing.
ghost use Rattle.std.specs.Prelude.{◌≡◌, ◌+◌, ◌<◌, ◌≤◌, length, take};
ghost use Rattle.std.proofs.lemmas.List.Edits.{sets};
ghost use Rattle.framing.specs.Run.{Run};
ghost use Rattle.deframer.specs.Rule.{rules_of};
ghost use Rattle.deframer.specs.Scan.{view};
ghost use Rattle.deframer.specs.Run.{with_run};

use crate::{Rule, State};

// How many octets of a chunk's front join the segment as they are. 0 outside a segment, behind an escape, and where the segment
// is full.
pub(crate) fn run_length(rule: Rule, s: State, octets: &[u8]) -> usize
    ensures upper_bound { result ≤ length octets.now }
    ensures run { 0 < result → Run (rules_of «rule») (view s) (take result octets.now) }
{
    let cap = usize::from(rule.cap);
    if s.pending || !s.synced || cap <= s.count {
        return 0;
    }
    let room = cap - s.count;
    let front = &octets[..room.min(octets.len())];
    rule.escapes.plain_length(front)
}

// A run joins the segment. No octets are no run, and change nothing.
pub(crate) fn with_run(rule: Rule, s: State, octets: &[u8], buffer: &mut [u8]) -> State
    requires octets_bound { 0 < length octets.now → s.count + length octets.now ≤ «rule».cap }
    requires rule_in_bounds { «rule».cap ≤ length buffer.old }
    ensures value { result ≡ with_run «rule» s octets.now }
    ensures buffer_after { buffer.new ≡ sets buffer.old s.count octets.now }
{
    if octets.is_empty() {
        return s;
    }
    State {
        count: s.count + octets.len(),
        check: crate::check::put_run(rule.check, s.count, s.check, octets, buffer),
        ..s
    }
}
