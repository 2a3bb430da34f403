// The first and the last line of a listing, each put into a lent buffer (specs/Ends). The lines of the reports between them are in the crate listing.
#![tactic(auto)]

ghost use Rattle.std.specs.Prelude.{◌≡◌, ◌+◌, ◌≤◌, length};
ghost use Rattle.text.specs.Placed.{Placed};
ghost use Rattle.text.specs.Room.{text_into, text_end};
ghost use Rattle.listing_ends.specs.Ends.{heading, end_line, short_line};

// Either line has room here.
const SHORT_LINE: usize = 80;

// Puts the first line at index `at` of `out`; the index behind it. Where `out` has no room for such a line it stays as it is,
// and so does the index.
pub fn put_heading(kiss: bool, level: u8, out: &mut [u8], at: usize) -> usize
    ensures value { result ≡ text_end short_line (heading kiss level) (length out.old) at }
    ensures out_after { out.new ≡ text_into short_line (heading kiss level) out.old at }
{
    if octets::has_room(SHORT_LINE, out.len(), at) {
        return heading_pieces(kiss, level, out, at);
    }
    at
}

// Puts the last line, likewise.
pub fn put_end(reports: u64, before: u64, after: u64, out: &mut [u8], at: usize) -> usize
    ensures value { result ≡ text_end short_line (end_line reports before after) (length out.old) at }
    ensures out_after { out.new ≡ text_into short_line (end_line reports before after) out.old at }
{
    if octets::has_room(SHORT_LINE, out.len(), at) {
        return end_pieces(reports, before, after, out, at);
    }
    at
}

fn heading_pieces(kiss: bool, level: u8, out: &mut [u8], at: usize) -> usize
    requires { at + short_line ≤ length out.old }
    ensures { Placed out.old at (heading kiss level) out.new result }
{
    if kiss {
        return octets::put(b"KISS listing\n", out, at);
    }
    let a = octets::put(b"QAFT listing level ", out, at);
    let b = text::put_decimal(level as u64, out, a);
    octets::put(b"\n", out, b)
}

fn end_pieces(reports: u64, before: u64, after: u64, out: &mut [u8], at: usize) -> usize
    requires { at + short_line ≤ length out.old }
    ensures { Placed out.old at (end_line reports before after) out.new result }
{
    let a = octets::put(b"end ", out, at);
    let b = text::put_decimal(reports, out, a);
    let c = octets::put(b" before ", out, b);
    let d = text::put_decimal(before, out, c);
    let e = octets::put(b" after ", out, d);
    let f = text::put_decimal(after, out, e);
    octets::put(b"\n", out, f)
}
