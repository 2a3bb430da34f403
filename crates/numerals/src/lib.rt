// Numbers as they are typed among a program's arguments (specs/Number).
#![tactic(auto)]

ghost use Rattle.std.specs.Prelude.{◌≡◌};
ghost use Rattle.numerals.specs.Number.{typed_of};

// Decimal digits alone, and no more than fit into a number of 64 bits; anything else is none.
pub fn parse(word: &[u8]) -> Option<usize>
    ensures { result ≡ typed_of word.now }
{
    if word.is_empty() {
        return None;
    }
    let mut n: usize = 0;
    for &octet in word {
        if !octet.is_ascii_digit() {
            return None;
        }
        let digit = usize::from(octet - b'0');
        n = n.checked_mul(10)?.checked_add(digit)?;
    }
    Some(n)
}
