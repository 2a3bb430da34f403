// Octets where many are escaped. The machine can't foretell there which octet is an escape, so these are taken without a branch on it,
// an octet of the segment at a time, with the escape that may stand behind it. What they do is what their steps do one by one.
ghost use Rattle.std.specs.Prelude.{◌≡◌, true, cond, ◌&&◌, ◌||◌, ◌≤◌, ◌<◌, length, set};
ghost use Rattle.deframer.specs.Rule.{partner_of, is_bad_pair};
ghost use Rattle.deframer.specs.Scan.{joined};
ghost use Rattle.deframer.specs.Pairs.{Ahead, Goes, escape_first, waiting};

use crate::{Rule, State};

// So many octets of the line are taken before runs are looked for again.
const MOST: usize = 32;

// How many octets of a chunk were taken, and the state behind them.
#[derive(Clone, Copy)]
pub struct Taken {
    pub taken: usize,
    pub state: State,
}

// Behind an escape: takes octets where another escape is near, and none else. None where a sum is kept of them either: with this
// beside it QAFT's loop, whose lines have few escapes, came out slower.
pub(crate) fn take(rule: Rule, s: State, chunk: &[u8], buffer: &mut [u8]) -> Taken
    requires { «rule».cap ≤ length buffer.old }
    ensures taken_in_bounds { result.taken ≤ length chunk.now }
    ensures ahead { Ahead «rule» s chunk.now buffer.old result.taken result.state buffer.new }
{
    if rule.check == crate::SUM {
        return Taken { taken: 0, state: s };
    }
    if s.pending && is_near(rule.escapes.escape, chunk) {
        return take_pairs(rule, s, chunk, buffer);
    }
    Taken { taken: 0, state: s }
}

// Whether an octet is among the three behind the first.
fn is_near(x: u8, chunk: &[u8]) -> bool {
    match chunk {
        [_, a, b, c, ..] => (*a == x) | (*b == x) | (*c == x),
        _ => false,
    }
}

// Octets of the segment, each with the escape behind it, up to one that wants a step of its own.
fn take_pairs(rule: Rule, state: State, chunk: &[u8], buffer: &mut [u8]) -> Taken
    requires { «rule».cap ≤ length buffer.old }
    ensures taken_in_bounds { result.taken ≤ length chunk.now }
    ensures ahead { Ahead «rule» state chunk.now buffer.old result.taken result.state buffer.new }
{
    let mut s = state;
    let mut i = 0;
    while i < chunk.len() {
        if MOST <= i {
            return Taken { taken: i, state: s };
        }
        let y = chunk[i];
        if goes(rule, s, y) {
            let t = took(rule, s, y, buffer);
            i += 1;
            let pending = is_escape(rule, &chunk[i..]);
            s = State { pending, ..t };
            i += usize::from(pending);
        } else {
            return Taken { taken: i, state: s };
        }
    }
    Taken { taken: i, state: s }
}

// Whether an octet joins the segment, by itself or as the partner of an escape, and is stored.
fn goes(rule: Rule, s: State, y: u8) -> bool
    ensures { result ≡ true → Goes «rule» s y }
{
    y != rule.escapes.flag
        && !rule.skips(y)
        && s.synced
        && s.count < usize::from(rule.cap)
        && (y != rule.escapes.escape || s.pending)
}

// Such an octet is stored; the state behind it.
fn took(rule: Rule, s: State, y: u8, buffer: &mut [u8]) -> State
    requires { s.count < length buffer.old }
    ensures value { result ≡ joined «rule» s (s.bad || (s.pending && is_bad_pair «rule» y)) (cond s.pending (partner_of «rule» y) y) }
    ensures buffer_after { buffer.new ≡ set buffer.old s.count (cond s.pending (partner_of «rule» y) y) }
{
    let partner = rule.partner(y);
    let octet = if s.pending { partner } else { y };
    buffer[s.count] = octet;
    let bad_pair = rule.bad_after(false, y);
    let bad = s.bad | (s.pending & bad_pair);
    rule.joined(s, bad, octet)
}

// Whether an escape comes next.
fn is_escape(rule: Rule, rest: &[u8]) -> bool
    ensures { result ≡ escape_first «rule» rest.now }
{
    match rest.first() {
        Some(z) => (*z != rule.escapes.flag) & (*z == rule.escapes.escape),
        None => false,
    }
}
