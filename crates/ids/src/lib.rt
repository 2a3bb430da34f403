// The rule of a station ID: a callsign, and what a station may append to it after "-".
#![tactic(auto)]

ghost use Rattle.std.specs.Prelude.{◌≡◌, ◌≤◌, length};
ghost use Rattle.std.specs.List.{prefix_len, list_all};
ghost use Rattle.ids.specs.Id.{is_callsign, is_graphic, valid_suffix, valid_id};

// Whether a slice is a station ID.
#[tactic(auto, using(crate::proofs::Id::prefix_callsign), unfolding(crate::specs::Id::valid_id))]
pub fn valid_id(octets: &[u8]) -> bool
    ensures { result ≡ valid_id octets.now }
{
    let (callsign, suffix) = octets.split_at(callsign_length(octets));
    !callsign.is_empty() && valid_suffix(suffix)
}

// How many octets of a callsign stand at the front.
fn callsign_length(octets: &[u8]) -> usize
    ensures value { result ≡ prefix_len is_callsign octets.now }
    ensures within { result ≤ length octets.now }
{
    octets.iter().take_while(|x| is_callsign(**x)).count()
}

// Nothing, or "-" and one or more graphic octets.
#[tactic(auto, using(crate::proofs::Id::all_pass), unfolding(crate::specs::Id::valid_suffix))]
fn valid_suffix(octets: &[u8]) -> bool
    ensures { result ≡ valid_suffix octets.now }
{
    match octets {
        [] => true,
        [b'-', appended @ ..] => !appended.is_empty() && all_graphic(appended),
        _ => false,
    }
}

fn all_graphic(octets: &[u8]) -> bool
    ensures { result ≡ list_all is_graphic octets.now }
{
    octets.iter().all(|&x| is_graphic(x))
}

// A to Z, or "/" and 0 to 9, which stand side by side.
#[tactic(auto, unfolding(crate::specs::Id::is_callsign))]
fn is_callsign(octet: u8) -> bool
    ensures { result ≡ is_callsign octet }
{
    matches!(octet, b'A'..=b'Z' | b'/'..=b'9')
}

#[tactic(auto, unfolding(crate::specs::Id::is_graphic))]
fn is_graphic(octet: u8) -> bool
    ensures { result ≡ is_graphic octet }
{
    matches!(octet, b'!'..=b'~')
}
