// The AFP reader: the first refusal of a frame, or what stands where in it. Definitions: specs/Read, specs/Meaning.
#![tactic(auto)]

ghost use Rattle.std.specs.Prelude.{◌≡◌, ◌+◌, ◌≤◌, length, IfOk};
ghost use Rattle.common.specs.FirstRefusal.{first_refusal};
ghost use Rattle.afp.specs.Refused.{number_of, refused};
ghost use Rattle.afp.specs.Limits.{min_frame, min_header, fixed_size};
ghost use Rattle.afp.specs.Layout.{offset, stations_in, right_header_sum};
ghost use Rattle.afp_read.specs.Read.{envelope_refusals, fixed_refusals, station_refusals, rest_refusals, refusals, refused_reading, accepted_reading, read_of};
ghost use Rattle.afp_read.specs.Meaning.{meaning, verdict};

use afp::{Part, Refusal};
use stations::Stations;

// The first protocol octet that is reserved.
const FIRST_RESERVED: u8 = afp::FIRST_RESERVED;

// A received header sum that its sender did not calculate.
const NOT_CALCULATED: u8 = 0;

// What stands where in a frame; or the number of its refusal, and then all else is 0. The station fields are with their closing 0,
// and the supplementary header with its length octet: its size is 0 where it is absent, and 1 where it is present and empty.
#[repr(C)]
#[derive(Clone, Copy)]
pub struct Reading {
    pub number: u8,
    pub protocol: u8,
    pub stations: Part,
    pub ids: usize,
    pub next: usize,
    pub supplementary: Part,
    pub payload: Part,
    pub unchecked: bool,
}

// What a frame holds, or why it is refused. The answer shows the frame's meaning.
pub fn read(frame: &[u8]) -> Reading
    ensures { (result ≡ read_of frame.now) × (verdict result frame.now ≡ meaning frame.now) }
{
    match checked(frame) {
        Ok(parsed) => accept(frame, parsed),
        Err(refusal) => refuse(refusal),
    }
}

// What the station fields hold of a frame that is not refused.
fn checked(frame: &[u8]) -> Result<Stations, Refusal>
    ensures first { refused result ≡ first_refusal (refusals frame.now) }
    ensures fits { IfOk result (λ parsed. (parsed ≡ stations_in frame.now) × (offset frame.now + 2 ≤ length frame.now) × (parsed.end + fixed_size ≤ offset frame.now)) }
{
    envelope_refusal(frame)?;
    fixed_refusal(frame)?;
    let parsed = stations_in(frame);
    station_refusal(frame, parsed)?;
    rest_refusal(frame, parsed.end)?;
    Ok(parsed)
}

// The refusal of a frame's length or check sequence.
fn envelope_refusal(frame: &[u8]) -> Result<(), Refusal>
    ensures { refused result ≡ first_refusal (envelope_refusals frame.now) }
{
    afp::length_refusal(frame.len())?;
    let low = frame.len() - 2;
    let high = frame.len() - 1;
    let received = u16::from_le_bytes([frame[low], frame[high]]);
    let check = fcs::check_sequence(&frame[..low]);
    if received != check {
        return Err(Refusal::BadCheck);
    }
    Ok(())
}

// The refusal of version, protocol or data offset.
fn fixed_refusal(frame: &[u8]) -> Result<(), Refusal>
    requires { min_frame ≤ length frame.now }
    ensures { refused result ≡ first_refusal (fixed_refusals frame.now) }
{
    if frame[1] != afp::VERSION {
        return Err(Refusal::BadVersion);
    }
    if FIRST_RESERVED <= frame[2] {
        return Err(Refusal::BadProtocol);
    }
    afp::offset_refusal(frame[3], frame.len())
}

// What the station fields hold.
fn stations_in(frame: &[u8]) -> Stations
    requires { (min_header ≤ offset frame.now) × (offset frame.now + 2 ≤ length frame.now) }
    ensures { result ≡ stations_in frame.now }
{
    let sum_at = usize::from(frame[3]) - 1;
    let pointed = usize::from(frame[4]).saturating_sub(stations::FIELDS_AT);
    stations::parse(&frame[stations::FIELDS_AT..sum_at], pointed, 0)
}

// The refusal of station fields, octet 4 or octet 0.
fn station_refusal(frame: &[u8], parsed: Stations) -> Result<(), Refusal>
    requires { min_frame ≤ length frame.now }
    ensures { refused result ≡ first_refusal (station_refusals frame.now parsed) }
{
    if parsed.end == 0 {
        return Err(Refusal::BadStations);
    }
    if !stations::offset_is(frame[4], parsed.next) {
        return Err(Refusal::BadNext);
    }
    if stations::lacks_next(parsed) {
        return Err(Refusal::BadNext);
    }
    if frame[0] != parsed.next.sum {
        return Err(Refusal::BadNextSum);
    }
    Ok(())
}

// The refusal of supplementary header, header sum or data; the station fields have `end` octets.
fn rest_refusal(frame: &[u8], end: usize) -> Result<(), Refusal>
    requires { (offset frame.now + 2 ≤ length frame.now) × (end + fixed_size ≤ offset frame.now) }
    ensures { refused result ≡ first_refusal (rest_refusals frame.now end) }
{
    let data_at = usize::from(frame[3]);
    let sum_at = data_at - 1;
    let start = stations::FIELDS_AT + end;
    if !supplementary::valid_supplementary(&frame[start..sum_at]) {
        return Err(Refusal::BadSupplementary);
    }
    if !right_header_sum(frame[sum_at], &frame[..sum_at]) {
        return Err(Refusal::BadHeaderSum);
    }
    if afp::MAX_DATA < frame.len() - 2 - data_at {
        return Err(Refusal::BadData);
    }
    Ok(())
}

// Whether a received header sum was not calculated, or is right.
#[tactic(auto, unfolding(afp::specs::Layout::right_header_sum))]
fn right_header_sum(received: u8, header: &[u8]) -> bool
    ensures { result ≡ right_header_sum received header.now }
{
    received == NOT_CALCULATED || received == sums::header_sum(header)
}

fn accept(frame: &[u8], parsed: Stations) -> Reading
    requires { (offset frame.now + 2 ≤ length frame.now) × (parsed.end + fixed_size ≤ offset frame.now) }
    ensures { result ≡ accepted_reading frame.now parsed }
{
    let data_at = usize::from(frame[3]);
    let sum_at = data_at - 1;
    let Stations { end, count, next } = parsed;
    Reading {
        number: afp::DONE,
        protocol: frame[2],
        stations: Part {
            place: stations::FIELDS_AT,
            size: end,
        },
        ids: count,
        next: next.number,
        supplementary: Part {
            place: stations::FIELDS_AT + end,
            size: data_at - afp::FIXED_SIZE - end,
        },
        payload: Part {
            place: data_at,
            size: frame.len() - 2 - data_at,
        },
        unchecked: frame[sum_at] == NOT_CALCULATED,
    }
}

fn refuse(refusal: Refusal) -> Reading
    ensures { result ≡ refused_reading (number_of refusal) }
{
    Reading {
        number: u8::from(refusal),
        protocol: 0,
        stations: afp::NO_PART,
        ids: 0,
        next: 0,
        supplementary: afp::NO_PART,
        payload: afp::NO_PART,
        unchecked: false,
    }
}
