// The line of a report in a listing, put into a lent buffer (specs/Line). The heading and the last line are in the crate listing_ends; what reads
// and composes stands above both.
#![tactic(auto)]

ghost use Rattle.std.specs.Prelude.{◌≡◌, ◌+◌, ◌-◌, ◌*◌, ◌≤◌, length, take, drop};
ghost use Rattle.octets.specs.Put.{put_end, put_into};
ghost use Rattle.text.specs.Placed.{Placed};
ghost use Rattle.text.specs.Room.{text_into, text_end};
ghost use Rattle.text.specs.Text.{max_digits};
ghost use Rattle.listing.specs.Line.{name, details, report_line, line_room};

// What a listing calls a report, of either framing; a frame with the number of its data octets.
#[derive(Clone, Copy)]
pub enum Entry {
    Frame(usize),
    Aborted,
    Long,
    Short,
    BadCheck,
    BadPair,
    BadEscape,
    Skipped,
}

// The line of a report has room here but for its data, which take two octets each.
const LINE_ROOM: usize = 51;

// The line of every report has room here.
pub const MAX_LINE: usize = 2 * qaft::MAX_DATA + LINE_ROOM;

// Puts the line of report number `number` at index `at` of `out`; the index behind it. Where `out` has no room for such a line it stays as it is,
// and so does the index. `octets` are the data of a frame.
pub fn put_report(number: u64, entry: Entry, octets: &[u8], out: &mut [u8], at: usize) -> usize
    ensures value { result ≡ text_end (line_room (length octets.now)) (report_line number entry octets.now) (length out.old) at }
    ensures out_after { out.new ≡ text_into (line_room (length octets.now)) (report_line number entry octets.now) out.old at }
{
    if out.len() < at {
        return at;
    }
    let room = out.len() - at;
    if room < LINE_ROOM {
        return at;
    }
    if (room - LINE_ROOM) / 2 < octets.len() {
        return at;
    }
    report_pieces(number, entry, octets, out, at)
}

fn report_pieces(number: u64, entry: Entry, octets: &[u8], out: &mut [u8], at: usize) -> usize
    requires { at + line_room (length octets.now) ≤ length out.old }
    ensures { Placed out.old at (report_line number entry octets.now) out.new result }
{
    let a = text::put_decimal(number, out, at);
    let b = put_name(entry, out, a);
    let c = put_details(entry, octets, out, b);
    octets::put(b"\n", out, c)
}

fn put_name(entry: Entry, out: &mut [u8], at: usize) -> usize
    ensures value { result ≡ put_end (name entry) out.old at }
    ensures out_after { out.new ≡ put_into (name entry) out.old at }
{
    octets::put(name(entry), out, at)
}

// The name of a report, a space before it.
fn name(entry: Entry) -> &'static [u8]
    ensures { result.now ≡ name entry }
{
    match entry {
        Entry::Frame(_) => b" frame",
        Entry::Aborted => b" aborted",
        Entry::Long => b" long",
        Entry::Short => b" short",
        Entry::BadCheck => b" bad",
        Entry::BadPair => b" pair",
        Entry::BadEscape => b" escape",
        Entry::Skipped => b" skipped",
    }
}

// Behind a frame's name its length and its data.
fn put_details(entry: Entry, octets: &[u8], out: &mut [u8], at: usize) -> usize
    requires { at + (2 * length octets.now + (max_digits + 2)) ≤ length out.old }
    ensures { Placed out.old at (details entry octets.now) out.new result }
{
    let Entry::Frame(_) = entry else {
        return at;
    };
    let a = octets::put(b" ", out, at);
    let b = text::put_decimal(octets.len() as u64, out, a);
    let c = octets::put(b" ", out, b);
    text::put_hex(octets, out, c)
}
