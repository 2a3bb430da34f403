// The supplementary header of an AFP header: a length octet, then exactly that many octets, made wholly of options.
#![tactic(auto)]

ghost use Rattle.std.specs.Prelude.{◌≡◌};
ghost use Rattle.supplementary.specs.Options.{valid_options, valid_supplementary};

// An option of this type is a callsign: the originating one the first time, the terminating one the second.
const CALLSIGN: u8 = 0;

const MOST_CALLSIGNS: usize = 2;

// Whether what stands between station fields and header sum is nothing, or a supplementary header.
#[tactic(auto, unfolding(crate::specs::Options::valid_supplementary))]
pub fn valid_supplementary(octets: &[u8]) -> bool
    ensures { result ≡ valid_supplementary octets.now }
{
    match octets {
        [] => true,
        [length, options @ ..] => usize::from(*length) == options.len() && valid_options(options),
    }
}

// Whether a slice is made wholly of options: a type, a length and a value each.
fn valid_options(options: &[u8]) -> bool
    ensures { result ≡ valid_options 0 0 options.now }
{
    let mut left = options;
    let mut callsigns: usize = 0;
    while let [kind, length, rest @ ..] = left {
        callsigns += usize::from(*kind == CALLSIGN);
        if MOST_CALLSIGNS < callsigns {
            return false;
        }
        let size = usize::from(*length);
        if rest.len() < size {
            return false;
        }
        left = &rest[size..];
    }
    left.is_empty()
}
