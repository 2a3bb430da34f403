// Who an AFP frame is for next, from its length, octets 0, 3 and 4 and the one station field that octet 4 points at: for a relay that need not
// read a frame for somebody else. Definitions: specs/Receiver.
#![tactic(auto)]

ghost use Rattle.std.specs.Prelude.{◌≡◌, ◌+◌, ◌-◌, ◌≤◌, length};
ghost use Rattle.common.specs.Refusals.{guarded};
ghost use Rattle.afp.specs.Limits.{min_header};
ghost use Rattle.afp.specs.Layout.{offset, part_of};
ghost use Rattle.afp_receiver.specs.Receiver.{pointer, first_next, field_refusals, field_part, receiver_of, number, field};
ghost use Rattle.afp_receiver.specs.declared.Receiver.TheVariants.{Refused, Station};
ghost use Rattle.afp_receiver.specs.Told.{told};
ghost use Rattle.afp_receiver.specs.Plain.{plain_receiver_of};

use afp::{Part, Refusal};
use stations::Field;

// The first place of a second ID: a source of one octet, with its length octet, may stand before it.
const FIRST_NEXT: usize = stations::FIELDS_AT + 2;

// Who a frame is for next: all stations, or the one whose field, its length octet too, is that part of the frame. Or why that can't be said:
// any number, since `number` answers for each.
#[derive(Clone, Copy)]
pub enum Receiver {
    Refused(u8),
    Broadcast,
    Station(Part),
}

// The same in plain numbers: place and size are 0 unless a station is named.
#[repr(C)]
#[derive(Clone, Copy)]
pub struct PlainReceiver {
    pub number: u8,
    pub field: Part,
}

// Who a frame is for next.
pub fn next_receiver(frame: &[u8]) -> Receiver
    ensures { result ≡ receiver_of frame.now }
{
    match judged(frame) {
        Ok(receiver) => receiver,
        Err(refusal) => Receiver::Refused(u8::from(refusal)),
    }
}

// The same with the refusal by itself.
fn judged(frame: &[u8]) -> Result<Receiver, Refusal>
    ensures { told result ≡ receiver_of frame.now }
{
    afp::length_refusal(frame.len())?;
    afp::offset_refusal(frame[3], frame.len())?;
    let place = usize::from(frame[4]);
    if place == 0 {
        if frame[0] != sums::BROADCAST_SUM {
            return Err(Refusal::BadNextSum);
        }
        return Ok(Receiver::Broadcast);
    }
    if place < FIRST_NEXT {
        return Err(Refusal::BadNext);
    }
    if usize::from(frame[3]) - 2 < place {
        return Err(Refusal::BadNext);
    }
    station_at(frame, place)
}

// The station whose field begins at a place. Behind the field stand the closing 0 and the header sum, before the data offset: so the field
// is looked for in the octets up to two before it.
#[tactic(auto, using(stations::proofs::Fields::id_within))]
fn station_at(frame: &[u8], place: usize) -> Result<Receiver, Refusal>
    requires { (min_header ≤ offset frame.now) × (offset frame.now + 2 ≤ length frame.now) × (place ≡ pointer frame.now) × (first_next ≤ place) × (place ≤ offset frame.now - 2) }
    ensures { told result ≡ guarded (field_refusals frame.now) Refused (Station (field_part frame.now)) }
{
    let closing = usize::from(frame[3]) - 2;
    let Field::Id(end) = stations::field_at(&frame[..closing], place) else {
        return Err(Refusal::BadStations);
    };
    if frame[0] != sums::next_station_sum(&frame[place..end]) {
        return Err(Refusal::BadNextSum);
    }
    Ok(Receiver::Station(Part {
        place,
        size: end - place,
    }))
}

impl Receiver {
    // The number given back.
    pub fn number(self) -> u8
        ensures { result ≡ number self }
    {
        match self {
            Receiver::Refused(n) => n,
            Receiver::Broadcast | Receiver::Station(_) => afp::DONE,
        }
    }

    // Where the next station's field stands, its length octet too; no part unless a station is named.
    pub fn field(self) -> Part
        ensures { result ≡ field self }
    {
        match self {
            Receiver::Refused(_) | Receiver::Broadcast => afp::NO_PART,
            Receiver::Station(part) => part,
        }
    }

    // The field as a part of its frame; no octets unless a station is named.
    pub fn station_field(self, frame: &[u8]) -> &[u8]
        ensures { result.now ≡ part_of (field self) frame.now }
    {
        afp::octets_of(frame, self.field())
    }
}

// Who a frame is for next, in plain numbers.
pub fn plain_receiver(frame: &[u8]) -> PlainReceiver
    ensures { result ≡ plain_receiver_of (receiver_of frame.now) }
{
    let receiver = next_receiver(frame);
    PlainReceiver {
        number: receiver.number(),
        field: receiver.field(),
    }
}
