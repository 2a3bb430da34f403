// The loop over a chunk that the readers of all flagged, escaped lines share, up to the flag that closes a segment. A reader
// hands over its rule, and judges the state that the flag found. What a rule says: specs/Rule; a call: specs/Scan; the laws of
// it: the crate framing. Runs of octets that stand for themselves: run.rt; the running check: check.rt; octets
// where many are escaped: pairs.rt.
#![tactic(auto)]

ghost use Rattle.std.specs.Prelude.{◌≡◌, not, ◌||◌, ◌≤◌, ◌==◌, cond, length, true, false, MatchOption};
ghost use Rattle.std.specs.List.{prefix_len};
ghost use Rattle.framing.specs.Step.{next, malformed};
ghost use Rattle.deframer.specs.Rule.{is_skipped, partner_of, is_bad_pair, rules_of};
ghost use Rattle.deframer.specs.Scan.{view, opened, joined, stored, in_segment, closed, step, scanned, scan_call};

use escapes::Escapes;

mod check;
mod pairs;
mod run;

// The running checks (specs/Rule): the sum modulo 256, the register of ISO 3309; any other number keeps the first octet.
pub const SUM: u8 = 0;

pub const REGISTER: u8 = 1;

pub const FIRST: u8 = 2;

// How a line is read. `mask`: what an octet behind the escape is combined with, by exclusive or; 0: there is no mask, and such an
// octet stands for the one that is escaped so, or for itself. `strict`: whether a pair is bad that stands for no octet that is
// escaped. `cap`: how many octets of a segment are stored. `check`: the running check.
#[derive(Clone, Copy)]
pub struct Rule {
    pub escapes: Escapes,
    pub mask: u8,
    pub strict: bool,
    pub cap: u16,
    pub check: u8,
}

// What a reader holds between two octets: whether a flag has come, an escape waits for its partner, a bad pair came in the segment;
// the octets of the segment after undoing escapes, cap + 1 for all above, and the running check of them.
#[derive(Clone, Copy)]
pub struct State {
    pub synced: bool,
    pub pending: bool,
    pub bad: bool,
    pub count: usize,
    pub check: u16,
}

impl State {
    // The same state, field by field: of a copy at once the compiler moves what lies between the fields too, through memory.
    fn by_fields(self) -> State
        ensures { result ≡ self }
    {
        State {
            synced: self.synced,
            pending: self.pending,
            bad: self.bad,
            count: self.count,
            check: self.check,
        }
    }
}

// The answer to a call. Where a segment was closed, `state` is the state in which the flag found it, and the next call starts
// from `Rule::opened`; else it is the state for the next call.
#[derive(Clone, Copy)]
pub struct Scanned {
    pub closed: bool,
    pub taken: usize,
    pub state: State,
}

impl Scanned {
    // The state in which the flag found the segment that it closed; none while the segment is open.
    pub fn segment(self) -> Option<State>
        ensures { MatchOption result (self.closed ≡ false) (λ s. (self.closed ≡ true) × (s ≡ self.state)) }
    {
        if self.closed { Some(self.state) } else { None }
    }
}

// What one octet of the line does: it changes the state alone; it stores an octet at an index of the buffer; it closes a segment.
#[derive(Clone, Copy)]
pub enum Action {
    Advance(State),
    Store(State, usize, u8),
    Close,
}

// Takes a chunk up to the flag that closes a segment. A buffer shorter than the cap: nothing is taken.
#[tactic(auto, unfolding(crate::specs::Scan::scanned))]
pub fn scan(rule: Rule, state: State, chunk: &[u8], buffer: &mut [u8]) -> Scanned
    ensures value { result ≡ (scanned rule state chunk.now buffer.old).answer }
    ensures buffer_after { buffer.new ≡ (scanned rule state chunk.now buffer.old).buffer }
{
    if buffer.len() < usize::from(rule.cap) {
        return Scanned {
            closed: false,
            taken: 0,
            state,
        };
    }
    rule.scan_chunk(state, chunk, buffer)
}

impl Rule {
    // The chunk's octets: a run at a time, and the octet behind it by its step.
    fn scan_chunk(self, state: State, chunk: &[u8], buffer: &mut [u8]) -> Scanned
        requires { self.cap ≤ length buffer.old }
        ensures value { result ≡ (scan_call self state chunk.now buffer.old).answer }
        ensures buffer_after { buffer.new ≡ (scan_call self state chunk.now buffer.old).buffer }
    {
        let mut s = state;
        let mut i = self.dropped(state, chunk);
        while i < chunk.len() {
            let n = run::run_length(self, s, &chunk[i..]);
            let end = i + n;
            s = run::with_run(self, s, &chunk[i..end], buffer);
            i = end;
            if i < chunk.len() {
                let x = chunk[i];
                i += 1;
                let action = self.step(s, x);
                match action {
                    Action::Advance(next) => {
                        let t = pairs::take(self, next, &chunk[i..], buffer);
                        s = t.state.by_fields();
                        i += t.taken;
                    }
                    Action::Store(next, at, octet) => {
                        buffer[at] = octet;
                        s = next.by_fields();
                    }
                    Action::Close => {
                        return Scanned {
                            closed: true,
                            taken: i,
                            state: State { synced: true, ..s },
                        };
                    }
                }
            }
        }
        Scanned {
            closed: false,
            taken: i,
            state: s,
        }
    }

    // How many octets of a chunk stand before the line's first flag: they are dropped at once, since the loop's turns take far longer.
    fn dropped(self, s: State, chunk: &[u8]) -> usize
        ensures { result ≡ cond s.synced 0 (prefix_len (λ x. not (x == self.escapes.flag)) chunk.now) }
    {
        if s.synced {
            return 0;
        }
        before_flag(self.escapes.flag, chunk)
    }

    // One octet of the line. Octets before the first flag are dropped.
    fn step(self, s: State, x: u8) -> Action
        ensures { result ≡ step self s x }
    {
        if x == self.escapes.flag {
            return self.closed(s);
        }
        if s.synced {
            return self.in_segment(s, x);
        }
        Action::Advance(s)
    }

    // A flag: it closes a segment, unless that is empty, and opens the next.
    fn closed(self, s: State) -> Action
        ensures { result ≡ closed self s }
    {
        if s.pending || s.count != 0 {
            return Action::Close;
        }
        Action::Advance(self.opened())
    }

    // An octet of a segment: skipped, the partner of an escape, an escape, or itself.
    fn in_segment(self, s: State, x: u8) -> Action
        ensures { result ≡ in_segment self s x }
    {
        if self.skips(x) {
            return Action::Advance(s);
        }
        if s.pending {
            return self.stored(s, self.bad_after(s.bad, x), self.partner(x));
        }
        if x == self.escapes.escape {
            return Action::Advance(State { pending: true, ..s });
        }
        self.stored(s, s.bad, x)
    }

    // An octet with its escape undone joins the segment. It is stored while the segment may still be a frame.
    fn stored(self, s: State, bad: bool, x: u8) -> Action
        ensures { result ≡ stored self s bad x }
    {
        let n = s.count;
        let next = self.joined(s, bad, x);
        if n < usize::from(self.cap) {
            return Action::Store(next, n, x);
        }
        Action::Advance(next)
    }

    // The state after it.
    #[tactic(auto, unfolding(crate::specs::Scan::joined, framing::specs::Step::joined))]
    fn joined(self, s: State, bad: bool, x: u8) -> State
        ensures { result ≡ joined self s bad x }
    {
        State {
            synced: s.synced,
            pending: false,
            bad,
            count: self.next(s.count),
            check: check::added(self.check, s.count, s.check, x),
        }
    }

    // The count of one octet more.
    fn next(self, n: usize) -> usize
        ensures { result ≡ next (rules_of self) n }
    {
        let cap = usize::from(self.cap);
        if n < cap {
            return n + 1;
        }
        cap + 1
    }

    // The state behind a flag, which opens a segment.
    pub fn opened(self) -> State
        ensures { result ≡ opened self }
    {
        State {
            synced: true,
            pending: false,
            bad: false,
            count: 0,
            check: check::blank(self.check),
        }
    }

    // Whether a state is well formed: no more than one octet past the cap; what can be a check; of no octets no check and no
    // bad pair; before any flag no segment. A state of no octets is looked at first: with short frames most are.
    #[tactic(auto, unfolding(framing::specs::Step::malformed))]
    pub fn well_formed(self, s: State) -> bool
        ensures { result ≡ not (malformed (rules_of self) (view s)) }
    {
        if s.count == 0 {
            return self.well_formed_empty(s);
        }
        s.count <= usize::from(self.cap) + 1 && check::is_check(self.check, s.check) && s.synced
    }

    // The same of a state of no octets.
    fn well_formed_empty(self, s: State) -> bool
        requires { s.count ≡ 0 }
        ensures { result ≡ not (malformed (rules_of self) (view s)) }
    {
        !s.bad && s.check == check::blank(self.check) && (s.synced || !s.pending)
    }

    // Raw octets that are escaped are skipped, but for the flag and the escape.
    #[tactic(auto, unfolding(crate::specs::Rule::is_skipped))]
    fn skips(self, x: u8) -> bool
        ensures { result ≡ is_skipped self x }
    {
        let e = self.escapes;
        x != e.flag && x != e.escape && e.escapes(x)
    }

    // The octet that one behind the escape stands for.
    #[tactic(auto, unfolding(crate::specs::Rule::partner_of))]
    fn partner(self, y: u8) -> u8
        ensures { result ≡ partner_of self y }
    {
        if self.mask != 0 {
            return y ^ self.mask;
        }
        let e = self.escapes;
        if e.is_partner(y) { e.stands_for(y) } else { y }
    }

    // Whether a bad pair came in the segment, where the last stands behind the escape as y. Test by test: as one condition it
    // cost the loop over pairs three instructions an octet.
    #[tactic(auto, unfolding(crate::specs::Rule::is_bad_pair))]
    fn bad_after(self, bad: bool, y: u8) -> bool
        ensures { result ≡ (bad || is_bad_pair self y) }
    {
        if bad {
            return true;
        }
        if self.strict {
            return !self.escapes.is_partner(y);
        }
        false
    }
}

// The octets before the first flag; all where there is none.
fn before_flag(flag: u8, octets: &[u8]) -> usize
    ensures { result ≡ prefix_len (λ x. not (x == flag)) octets.now }
{
    octets.iter().take_while(|x| **x != flag).count()
}
