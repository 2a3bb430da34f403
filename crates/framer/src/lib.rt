// The one frame writer of every framing: octets between flags, escaped as an `Escapes` says. What it answers and writes:
// specs/Write; a frame on the line: the crate framing, specs/Writing.
#![tactic(auto)]

ghost use Rattle.std.specs.Prelude.{◌≡◌, ◌≤◌, length, is_some, unwrap_or, nat_le};
ghost use Rattle.std.proofs.lemmas.List.Edits.{sets};
ghost use Rattle.framing.specs.Writing.{opening};
ghost use Rattle.escapes.specs.Escapes.{writing_of};
ghost use Rattle.framer.specs.Write.{framed_by, written_length, written_into};

use escapes::Escapes;

mod put;
mod room;

// What a frame holds, `head`, `octets` and `tail` one after another, of which the first and the last have a few octets. `at_flag`: the
// line stands at a flag already, so that the frame needs none to open it. The escapes are handed over beside it: where two framings
// share the writer, the compiler took them out of it by shifts, and a short frame took some thirty instructions more.
#[derive(Clone, Copy)]
pub struct Frame<'a> {
    pub at_flag: bool,
    pub head: &'a [u8],
    pub octets: &'a [u8],
    pub tail: &'a [u8],
}

// Writes one frame to the front of `out`. Its length, or `None` where `out` has no room for it, and then nothing is written.
pub fn write(e: Escapes, frame: Frame<'_>, out: &mut [u8]) -> Option<usize>
    ensures value { unwrap_or result 0 ≡ written_length (framed_by e frame.entry) out.old }
    ensures variant { is_some result ≡ nat_le (length (framed_by e frame.entry)) (length out.old) }
    ensures out_after { out.new ≡ written_into (framed_by e frame.entry) out.old }
{
    if frame.fits(e, out.len()) {
        return Some(frame.put(e, out));
    }
    None
}

impl Frame<'_> {
    // Puts the frame at the front of `out`, which has room for it; the number of its octets.
    #[tactic(auto, using(crate::proofs::Pieces::length_pieces))]
    fn put(self, e: Escapes, out: &mut [u8]) -> usize
        requires { length (framed_by e self) ≤ length out.old }
        ensures value { result ≡ length (framed_by e self.entry) }
        ensures out_after { out.new ≡ sets out.old 0 (framed_by e self.entry) }
    {
        let start = put_opening(e, self.at_flag, out);
        let first = put::put_each(e, false, self.head, out, start);
        let last = put::put_octets(e, self.octets, out, first);
        let end = put::put_each(e, false, self.tail, out, last);
        out[end] = e.flag;
        end + 1
    }
}

// The opening flag, unless the line stands at one.
fn put_opening(e: Escapes, at_flag: bool, out: &mut [u8]) -> usize
    requires { length (opening (writing_of e) at_flag) ≤ length out.old }
    ensures value { result ≡ length (opening (writing_of e) at_flag) }
    ensures out_after { out.new ≡ sets out.old 0 (opening (writing_of e) at_flag) }
{
    if at_flag {
        return 0;
    }
    out[0] = e.flag;
    1
}
