// Numbers and octets as text, put into a lent buffer. Each function promises what `octets::put` promises of the same text: it
// stands from the index `at` on, and the index behind it is given back; where it does not fit, nothing is put and `at` comes back.
#![tactic(auto)]

ghost use Rattle.std.specs.Prelude.{◌≡◌, ◌+◌, ◌*◌, ◌≤◌, ◌<◌, length, drop};
ghost use Rattle.std.proofs.lemmas.List.Edits.{sets};
ghost use Rattle.octets.specs.Put.{put_end, put_into};
ghost use Rattle.text.specs.Text.{decimal, max_digits, hex_digit, hex};

// The most digits of a number.
pub const MAX_DIGITS: usize = 20;

// A number in decimal.
pub fn put_decimal(n: u64, out: &mut [u8], at: usize) -> usize
    ensures value { result ≡ put_end (decimal n) out.old at }
    ensures out_after { out.new ≡ put_into (decimal n) out.old at }
{
    let mut digits = [0u8; MAX_DIGITS];
    let from = spell(n, &mut digits);
    octets::put(&digits[from..], out, at)
}

// A number's digits at the end of 20 octets; the index of the first.
fn spell(n: u64, digits: &mut [u8]) -> usize
    requires { length digits.old ≡ max_digits }
    ensures { (result ≤ max_digits) × (drop result digits.new ≡ decimal n) }
{
    let mut left = n;
    for i in (0..MAX_DIGITS).rev() {
        digits[i] = b'0' + (left % 10) as u8;
        left /= 10;
        if left == 0 {
            return i;
        }
    }
    0
}

// Octets in hexadecimal, two digits each.
pub fn put_hex(octets: &[u8], out: &mut [u8], at: usize) -> usize
    ensures value { result ≡ put_end (hex octets.now) out.old at }
    ensures out_after { out.new ≡ put_into (hex octets.now) out.old at }
{
    if out.len() < at {
        return at;
    }
    if (out.len() - at) / 2 < octets.len() {
        return at;
    }
    spell_hex(octets, out, at)
}

// The loop.
fn spell_hex(octets: &[u8], out: &mut [u8], at: usize) -> usize
    requires { at + 2 * length octets.now ≤ length out.old }
    ensures value { result ≡ at + length (hex octets.now) }
    ensures out_after { out.new ≡ sets out.old at (hex octets.now) }
{
    for (i, &x) in octets.iter().enumerate() {
        let to = at + 2 * i;
        out[to] = hex_digit(x / 16);
        out[to + 1] = hex_digit(x % 16);
    }
    at + 2 * octets.len()
}

fn hex_digit(n: u8) -> u8
    requires { n < 16 }
    ensures { result ≡ hex_digit n }
{
    if n < 10 { b'0' + n } else { b'A' + (n - 10) }
}
