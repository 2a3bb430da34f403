// Raw octets of a capture for the line sheet, chunk after chunk (specs/Raw): those that are read and those that are skipped, which are
// flow control at level 1 and none at level 0. Each count stops by itself, so the two are counted apart: a difference of two counts
// that have stopped says nothing.
#![tactic(auto)]

ghost use Rattle.std.specs.Prelude.{◌≡◌};
ghost use Rattle.capture.specs.Octets.{parts_of};
ghost use Rattle.qaft.specs.Escape.{flag};
ghost use Rattle.sheet_rules.specs.Counts.{skipped_of};
ghost use Rattle.sheet_octets.specs.Raw.{raw_all, flow_of};

use capture::{Octets, Parts};

// Octets of a capture without its skipped ones; and of its flags and skipped octets alone.
#[derive(Clone, Copy)]
pub struct RawOctets {
    pub kept: Octets,
    pub skipped: Octets,
}

impl RawOctets {
    // With the octets of a chunk, at a level.
    pub fn add(self, level: u8, chunk: &[u8]) -> Self
        ensures { result ≡ raw_all level self chunk.now }
    {
        let all = capture::parts_of(qaft::FLAG, chunk);
        let flow = flow_parts(level, chunk, all);
        let read = Parts {
            before: all.before - flow.before,
            flags: all.flags,
            between: all.between - flow.between,
            after: all.after - flow.after,
        };
        let kept = self.kept;
        let skipped = self.skipped;
        Self {
            kept: kept.with(sheet::TOO_LARGE, read),
            skipped: skipped.with(sheet::TOO_LARGE, flow),
        }
    }
}

// The parts of a chunk's flags and skipped octets, where `all` are the parts of the chunk.
fn flow_parts(level: u8, chunk: &[u8], all: Parts) -> Parts
    requires { all ≡ parts_of flag chunk.now }
    ensures { result ≡ parts_of flag (flow_of level chunk.now) }
{
    let before = skipped_in(level, &chunk[..all.before]);
    let after = skipped_in(level, &chunk[chunk.len() - all.after..]);
    let between = skipped_in(level, chunk) - before - after;
    Parts {
        before,
        flags: all.flags,
        between,
        after,
    }
}

// The skipped octets of a chunk; at level 0 nothing is looked for.
fn skipped_in(level: u8, chunk: &[u8]) -> usize
    ensures { result ≡ skipped_of level chunk.now }
{
    if level == 1 {
        return capture::flags_in(qaft::XON, chunk) + capture::flags_in(qaft::XOFF, chunk);
    }
    0
}
