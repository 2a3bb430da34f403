// The AFP writer: a frame at the front of a lent buffer. The parts of a frame are `fields`, the station fields with their closing 0,
// `supplementary`, the supplementary header with its length octet or nothing, and `payload`, the data. Definitions: specs/Frame, specs/Write.
#![tactic(auto)]

ghost use Rattle.std.specs.Prelude.{◌≡◌, ◌++◌, ◌+◌, ◌≤◌, length, take, IfOk};
ghost use Rattle.std.proofs.lemmas.List.Edits.{sets};
ghost use Rattle.common.specs.FirstRefusal.{first_refusal};
ghost use Rattle.common.specs.Buffer.{with_front};
ghost use Rattle.fcs.specs.Fcs.{check_octets};
ghost use Rattle.stations.specs.Fields.{fields_at, stations_of, next_offset};
ghost use Rattle.afp.specs.Refused.{refused};
ghost use Rattle.afp.specs.Limits.{max_variable};
ghost use Rattle.afp_write.specs.Frame.{header_length, header_before, header_of, with_check};
ghost use Rattle.afp_write.specs.Write.{part_refusals, size_refusals, write_refusals, write_of, buffer_of};

use afp::Refusal;
use stations::{Next, Stations};

// How many octets were written, or the number of the refusal.
#[repr(C)]
#[derive(Clone, Copy)]
pub struct Written {
    pub number: u8,
    pub length: usize,
}

// The parts of a frame but for the next station, which is found in the station fields.
#[derive(Clone, Copy)]
struct Parts<'a> {
    protocol: u8,
    fields: &'a [u8],
    supplementary: &'a [u8],
    payload: &'a [u8],
}

// A frame of these parts; `next` is the next ID's number with the source as 1, or 0 for a broadcast.
pub fn write(
    protocol: u8,
    fields: &[u8],
    next: usize,
    supplementary: &[u8],
    payload: &[u8],
    out: &mut [u8],
) -> Written
    ensures value { result ≡ write_of protocol fields.now next supplementary.now payload.now out.old }
    ensures out_after { out.new ≡ buffer_of protocol fields.now next supplementary.now payload.now out.old }
{
    let parts = Parts {
        protocol,
        fields,
        supplementary,
        payload,
    };
    match parts.checked(next, out.len()) {
        Ok(station) => Written {
            number: afp::DONE,
            length: parts.put_frame(station, out),
        },
        Err(refusal) => Written {
            number: u8::from(refusal),
            length: 0,
        },
    }
}

impl Parts<'_> {
    // The next station of parts that are not refused.
    fn checked(self, next: usize, room: usize) -> Result<Next, Refusal>
        ensures first { refused result ≡ first_refusal (write_refusals self.entry.protocol self.entry.fields.now next self.entry.supplementary.now self.entry.payload.now room) }
        ensures fits { IfOk result (λ station. (station ≡ (stations_of 0 next self.entry.fields.now).next) × (station.index ≤ 250) × (length self.entry.fields.now + length self.entry.supplementary.now ≤ max_variable) × (header_length (length self.entry.fields.now) (length self.entry.supplementary.now) + length self.entry.payload.now + 2 ≤ room)) }
    {
        let parsed = stations::parse(self.fields, 0, next);
        self.part_refusal(parsed, next)?;
        self.size_refusal(room)?;
        Ok(parsed.next)
    }

    // The refusal of protocol, station fields, next ID or supplementary header.
    fn part_refusal(self, parsed: Stations, next: usize) -> Result<(), Refusal>
        ensures { refused result ≡ first_refusal (part_refusals self.entry.protocol self.entry.fields.now parsed next self.entry.supplementary.now) }
    {
        if afp::FIRST_RESERVED <= self.protocol {
            return Err(Refusal::BadProtocol);
        }
        let end = parsed.end;
        if end == 0 {
            return Err(Refusal::BadStations);
        }
        if end != self.fields.len() {
            return Err(Refusal::BadStations);
        }
        let number = parsed.next.number;
        if number != next {
            return Err(Refusal::BadNext);
        }
        if stations::lacks_next(parsed) {
            return Err(Refusal::BadNext);
        }
        if !supplementary::valid_supplementary(self.supplementary) {
            return Err(Refusal::BadSupplementary);
        }
        Ok(())
    }

    // The refusal of sizes. Either of the two parts alone can be too long, so that their sum is not taken before.
    fn size_refusal(self, room: usize) -> Result<(), Refusal>
        ensures { refused result ≡ first_refusal (size_refusals (length self.entry.fields.now) (length self.entry.supplementary.now) (length self.entry.payload.now) room) }
    {
        if afp::MAX_VARIABLE < self.fields.len() {
            return Err(Refusal::BadOffset);
        }
        if afp::MAX_VARIABLE < self.supplementary.len() {
            return Err(Refusal::BadOffset);
        }
        let header = afp::FIXED_SIZE + (self.fields.len() + self.supplementary.len());
        if header < afp::MIN_HEADER {
            return Err(Refusal::BadOffset);
        }
        if afp::MAX_HEADER < header {
            return Err(Refusal::BadOffset);
        }
        if afp::MAX_DATA < self.payload.len() {
            return Err(Refusal::BadData);
        }
        let frame = header + self.payload.len() + 2;
        if room < frame {
            return Err(Refusal::OutTooSmall);
        }
        Ok(())
    }

    // The frame at the front of the buffer; its length.
    fn put_frame(self, next: Next, out: &mut [u8]) -> usize
        requires { (next.index ≤ 250) × (length self.fields.now + length self.supplementary.now ≤ max_variable) × (header_length (length self.fields.now) (length self.supplementary.now) + length self.payload.now + 2 ≤ length out.old) }
        ensures { (result ≡ header_length (length self.entry.fields.now) (length self.entry.supplementary.now) + length self.entry.payload.now + 2) × (out.new ≡ with_front (with_check (header_of self.entry.protocol next self.entry.fields.now self.entry.supplementary.now ++ self.entry.payload.now)) out.old) }
    {
        let header = self.put_header(next, out);
        let checked = put(self.payload, out, header);
        put_check(out, checked)
    }

    // The header at the front of the buffer; its length.
    fn put_header(self, next: Next, out: &mut [u8]) -> usize
        requires { (next.index ≤ 250) × (length self.fields.now + length self.supplementary.now ≤ max_variable) × (header_length (length self.fields.now) (length self.supplementary.now) ≤ length out.old) }
        ensures { (result ≡ header_length (length self.entry.fields.now) (length self.entry.supplementary.now)) × (out.new ≡ with_front (header_of self.entry.protocol next self.entry.fields.now self.entry.supplementary.now) out.old) }
    {
        let summed = self.put_before(next, out);
        let sum = sums::header_sum(&out[..summed]);
        put(&[sum], out, summed)
    }

    // The header before its sum at the front of the buffer; the place behind it.
    fn put_before(self, next: Next, out: &mut [u8]) -> usize
        requires { (next.index ≤ 250) × (length self.fields.now + length self.supplementary.now ≤ max_variable) × (fields_at + (length self.fields.now + length self.supplementary.now) ≤ length out.old) }
        ensures { (result ≡ fields_at + (length self.entry.fields.now + length self.entry.supplementary.now)) × (out.new ≡ with_front (header_before self.entry.protocol next self.entry.fields.now self.entry.supplementary.now) out.old) }
    {
        let header = afp::FIXED_SIZE + (self.fields.len() + self.supplementary.len());
        let place = next_offset(next);
        let first = [next.sum, afp::VERSION, self.protocol, header as u8, place];
        let behind_first = put(&first, out, 0);
        let behind_fields = put(self.fields, out, behind_first);
        put(self.supplementary, out, behind_fields)
    }
}

// Octet 4 for a next station.
#[tactic(auto, unfolding(stations::specs::Fields::next_offset))]
fn next_offset(next: Next) -> u8
    requires { next.index ≤ 250 }
    ensures { result ≡ next_offset next }
{
    if next.number == 0 {
        0
    } else {
        (stations::FIELDS_AT + next.index) as u8
    }
}

// The check octets of the first octets of the buffer, behind them; the place behind.
fn put_check(out: &mut [u8], checked: usize) -> usize
    requires { checked + 2 ≤ length out.old }
    ensures { (result ≡ checked + 2) × (out.new ≡ sets out.old checked (check_octets (take checked out.old))) }
{
    let check = fcs::check_sequence(&out[..checked]).to_le_bytes();
    put(&check, out, checked)
}

// Octets at a place of the buffer; the place behind them.
fn put(octets: &[u8], out: &mut [u8], at: usize) -> usize
    requires { at + length octets.now ≤ length out.old }
    ensures { (result ≡ at + length octets.now) × (out.new ≡ sets out.old at octets.now) }
{
    octets::put(octets, out, at)
}
