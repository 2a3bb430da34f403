// A line of the printed line sheet (specs/Line), put into a lent buffer.
#![tactic(auto)]

ghost use Rattle.std.specs.Prelude.{◌≡◌, ◌+◌, ◌≤◌, length};
ghost use Rattle.octets.specs.Sum.{sum};
ghost use Rattle.sheet.specs.Limits.{counts_long};
ghost use Rattle.text.specs.Placed.{Placed};
ghost use Rattle.text.specs.Room.{text_into, text_end};
ghost use Rattle.sheet_line.specs.Line.{share, counts_text, share_text, line_text, counts_room, share_room, line_room};

use fraction::Fraction;
use sheet::Tally;

// The numbers of a line: its own, the counts, and the two of the share.
const NUMBERS: usize = sheet::COUNTS + 3;

// Every line has room here: each number, and the octet behind it.
pub const MAX_LINE: usize = NUMBERS * (text::MAX_DIGITS + 1);

// The counts of reports stand from sheet::FRAMES up to here.
const REPORTS_END: usize = sheet::BAD_PAIRS + 1;

// Puts the line of record number `line` at index `at` of `out`; the index behind it. Where `out` has no room for every such line it
// stays as it is, and so does the index.
pub fn put_line(line: usize, tally: Tally, out: &mut [u8], at: usize) -> usize
    ensures value { result ≡ text_end line_room (line_text line tally.counts) (length out.old) at }
    ensures out_after { out.new ≡ text_into line_room (line_text line tally.counts) out.old at }
{
    if octets::has_room(MAX_LINE, out.len(), at) {
        return line_pieces(line, tally, out, at);
    }
    at
}

fn line_pieces(line: usize, tally: Tally, out: &mut [u8], at: usize) -> usize
    requires { at + line_room ≤ length out.old }
    ensures { Placed out.old at (line_text line tally.counts) out.new result }
{
    let a = text::put_decimal(line as u64, out, at);
    let b = put_counts(tally, out, a);
    put_share(share(tally), out, b)
}

// The counts, a space before each.
fn put_counts(tally: Tally, out: &mut [u8], at: usize) -> usize
    requires { at + counts_room ≤ length out.old }
    ensures { Placed out.old at (counts_text tally.counts) out.new result }
{
    let mut to = at;
    for &count in &tally.counts {
        let a = octets::put(b" ", out, to);
        to = text::put_decimal(u64::from(count), out, a);
    }
    to
}

// The share and the end of the line.
fn put_share(share: Fraction, out: &mut [u8], at: usize) -> usize
    requires { at + share_room ≤ length out.old }
    ensures { Placed out.old at (share_text share) out.new result }
{
    let a = octets::put(b" ", out, at);
    let b = text::put_decimal(share.numerator, out, a);
    let c = octets::put(b"/", out, b);
    let d = text::put_decimal(share.denominator, out, c);
    octets::put(b"\n", out, d)
}

// Bad checks in all reports, which are added in more than 32 bits.
fn share(tally: Tally) -> Fraction
    ensures { result ≡ share tally.counts }
{
    let reports = total(&tally.counts[sheet::FRAMES..REPORTS_END]);
    let bad = u64::from(tally.counts[sheet::BAD_CHECKS]);
    fraction::lowest(bad, reports)
}

// The sum of some of a line's counts.
fn total(counts: &[u32]) -> u64
    requires { length counts.now ≤ counts_long }
    ensures { result ≡ sum counts.now }
{
    let mut total: u64 = 0;
    for &count in counts {
        total += u64::from(count);
    }
    total
}
