// AFP: the parts of a frame that an answer of the reader shows, each as a returned part of the lent frame, for every frame and
// every answer value.
#![tactic(auto)]

ghost use Rattle.std.specs.Prelude.{◌≡◌};
ghost use Rattle.afp.specs.Layout.{part_of};

use afp_read::Reading;

// The station fields that an answer shows, with their closing 0.
pub fn station_fields(frame: &[u8], answer: Reading) -> &[u8]
    ensures { result.now ≡ part_of answer.stations frame.now }
{
    afp::octets_of(frame, answer.stations)
}

// The supplementary header that an answer shows, with its length octet; nothing where it is absent.
pub fn supplementary_header(frame: &[u8], answer: Reading) -> &[u8]
    ensures { result.now ≡ part_of answer.supplementary frame.now }
{
    afp::octets_of(frame, answer.supplementary)
}

// The data that an answer shows.
pub fn frame_data(frame: &[u8], answer: Reading) -> &[u8]
    ensures { result.now ≡ part_of answer.payload frame.now }
{
    afp::octets_of(frame, answer.payload)
}
