// Two whole numbers in lowest terms (specs/Fraction).
#![tactic(auto)]

ghost use Rattle.std.specs.Prelude.{◌≡◌};
ghost use Rattle.fraction.specs.Fraction.{gcd, lowest_of};

#[derive(Clone, Copy)]
pub struct Fraction {
    pub numerator: u64,
    pub denominator: u64,
}

// n/d in lowest terms; 0/1 where n is 0, whatever d is.
pub fn lowest(n: u64, d: u64) -> Fraction
    ensures { result ≡ lowest_of n d }
{
    if n == 0 {
        return Fraction {
            numerator: 0,
            denominator: 1,
        };
    }
    let g = gcd(n, d);
    Fraction {
        numerator: n / g,
        denominator: d / g,
    }
}

// Euclid's loop.
fn gcd(n: u64, d: u64) -> u64
    ensures { result ≡ gcd n d }
{
    let mut a = n;
    let mut b = d;
    while 0 < b {
        let left = a % b;
        a = b;
        b = left;
    }
    a
}
