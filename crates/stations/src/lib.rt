// The station fields of an AFP header, and which of them is the next station.
#![tactic(auto)]

ghost use Rattle.std.specs.Prelude.{◌≡◌, eqb};
ghost use Rattle.stations.specs.Fields.{next_after, stations_of, next_offset, lacks_next};
ghost use Rattle.stations.specs.FieldAt.{field_at};

// Where the station fields begin in a frame.
pub const FIELDS_AT: usize = 5;

// The next station: its number with the source as 1, the index of its length octet in the station fields, and octet 0 as it is written for it.
// Number and index are 0 where there is none.
#[derive(Clone, Copy)]
pub struct Next {
    pub number: usize,
    pub index: usize,
    pub sum: u8,
}

// The station fields: their length with the closing 0 (0 where they are malformed), the number of IDs, the next station.
#[derive(Clone, Copy)]
pub struct Stations {
    pub end: usize,
    pub count: usize,
    pub next: Next,
}

const NO_NEXT: Next = Next {
    number: 0,
    index: 0,
    sum: sums::BROADCAST_SUM,
};

const NO_STATIONS: Stations = Stations {
    end: 0,
    count: 0,
    next: NO_NEXT,
};

// What stands at an index of the station fields: an ID with the index behind it.
#[derive(Clone, Copy)]
pub enum Field {
    Closing,
    Id(usize),
    Malformed,
}

// The next station that is wanted: the one whose field begins at the index `pointed`, or the one of the number `numbered`.
#[derive(Clone, Copy)]
struct Wanted {
    pointed: usize,
    numbered: usize,
}

// The station fields at the front of a slice; the next station is the one at the index `pointed` or with the number `numbered`.
#[tactic(auto, using(crate::proofs::Fields::id_within))]
pub fn parse(fields: &[u8], pointed: usize, numbered: usize) -> Stations
    ensures { result ≡ stations_of pointed numbered fields.now }
{
    let wanted = Wanted { pointed, numbered };
    let mut index: usize = 0;
    let mut count: usize = 0;
    let mut next = NO_NEXT;
    loop {
        match field_at(fields, index) {
            Field::Id(end) => {
                count += 1;
                next = wanted.next_after(next, index, count, &fields[index..end]);
                index = end;
            }
            Field::Closing => {
                if count == 0 {
                    return NO_STATIONS;
                }
                return Stations {
                    end: index + 1,
                    count,
                    next,
                };
            }
            Field::Malformed => return NO_STATIONS,
        }
    }
}

impl Wanted {
    // The next station once the ID of this number is passed, whose field begins at this index.
    #[tactic(auto, unfolding(crate::specs::Fields::next_after))]
    fn next_after(self, next: Next, index: usize, number: usize, field: &[u8]) -> Next
        ensures { result ≡ next_after self.pointed self.numbered index number field.now next }
    {
        if number != 1 && next.number == 0 && (index == self.pointed || number == self.numbered) {
            let sum = sums::next_station_sum(field);
            Next { number, index, sum }
        } else {
            next
        }
    }
}

// What stands at an index of the station fields; an ID lies wholly within them.
pub fn field_at(fields: &[u8], index: usize) -> Field
    ensures { result ≡ field_at fields.now index }
{
    if fields.len() <= index {
        return Field::Malformed;
    }
    let length = usize::from(fields[index]);
    if length == 0 {
        return Field::Closing;
    }
    let start = index + 1;
    let left = fields.len() - start;
    if left < length {
        return Field::Malformed;
    }
    let end = start + length;
    if ids::valid_id(&fields[start..end]) {
        Field::Id(end)
    } else {
        Field::Malformed
    }
}

// Whether an octet 4 is right for a next station.
#[tactic(auto, unfolding(crate::specs::Fields::next_offset))]
pub fn offset_is(octet: u8, next: Next) -> bool
    ensures { result ≡ eqb octet (next_offset next) }
{
    if next.number == 0 {
        octet == 0
    } else {
        usize::from(octet).checked_sub(FIELDS_AT) == Some(next.index)
    }
}

// Whether there are several IDs and none of them is next.
#[tactic(auto, unfolding(crate::specs::Fields::lacks_next))]
pub fn lacks_next(stations: Stations) -> bool
    ensures { result ≡ lacks_next stations }
{
    stations.count != 1 && stations.next.number == 0
}
