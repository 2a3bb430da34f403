// The frame check sequence of ISO 3309, without a table: eight octets at a time, and the last few at once; fewer than eight by twos.
#![tactic(auto)]

ghost use Rattle.std.specs.Prelude.{◌≡◌, ◌+◌, ◌-◌, ◌*◌, ◌%◌, ◌≤◌, ◌<◌, length, drop};
ghost use Rattle.fcs.specs.Fcs.{feed, feed_all, check_sequence};
ghost use Rattle.fcs.specs.Words.{shift_bits, little_endian};

// The register before the first octet, and after any octets with their own check octets.
pub const PRESET: u16 = 0xFFFF;

pub const RESIDUE: u16 = 0xF0B8;

// The register after one octet. The octet that leaves it is divided by the generator: its quotient q is t (1 + x^4),
// cut off after eight bits, and q (1 + x^5 + x^12) is what the division leaves.
pub fn feed_octet(register: u16, x: u8) -> u16
    ensures { result ≡ feed register x }
{
    let d = register ^ u16::from(x);
    let t = d << 8;
    let q = t ^ (t << 4);
    (d >> 8) ^ q ^ (q >> 5) ^ (q >> 12)
}

// The same for two octets, which fill the register. The quotient is d (1 + x^4 + x^11) (1 + x^8), cut off after sixteen bits.
fn feed_pair(register: u16, octets: &[u8]) -> u16
    requires { length octets.now ≡ 2 }
    ensures { result ≡ feed_all register octets.now }
{
    let d = register ^ u16::from_le_bytes([octets[0], octets[1]]);
    let a = d ^ (d << 4) ^ (d << 11);
    let q = a ^ (a << 8);
    q ^ (q >> 5) ^ (q >> 12)
}

// The same for 64 bits at once. With z = x^4 + x^11 + x^16 the quotient is d (1 + z) (1 + z^2) (1 + z^4) (1 + z^8), cut off after 64 bits.
fn shift_word(d: u64) -> u16
    ensures { result ≡ shift_bits 64 d }
{
    let a = d ^ (d << 4) ^ (d << 11) ^ (d << 16);
    let b = a ^ (a << 8) ^ (a << 22) ^ (a << 32);
    let e = b ^ (b << 16) ^ (b << 44);
    let q = e ^ (e << 32);
    ((q >> 48) ^ (q >> 53) ^ (q >> 60)) as u16
}

// Eight octets as one number.
fn word(o: &[u8]) -> u64
    requires { length o.now ≡ 8 }
    ensures { result ≡ little_endian o.now }
{
    u64::from_le_bytes([o[0], o[1], o[2], o[3], o[4], o[5], o[6], o[7]])
}

// The register after eight octets.
fn feed_eight(register: u16, octets: &[u8]) -> u16
    requires { length octets.now ≡ 8 }
    ensures { result ≡ feed_all register octets.now }
{
    shift_word(word(octets) ^ u64::from(register))
}

// The register after a slice of whole eights.
#[tactic(auto, using(crate::proofs::Register::feed_more, crate::proofs::Register::feed_none))]
fn feed_eights(register: u16, octets: &[u8]) -> u16
    requires { length octets.now % 8 ≡ 0 }
    ensures { result ≡ feed_all register octets.now }
{
    let mut c = register;
    for eight in octets.chunks_exact(8) {
        c = feed_eight(c, eight);
    }
    c
}

// The register after a slice of whole pairs.
#[tactic(auto, using(crate::proofs::Register::feed_more, crate::proofs::Register::feed_none))]
fn feed_pairs(register: u16, octets: &[u8]) -> u16
    requires { length octets.now % 2 ≡ 0 }
    ensures { result ≡ feed_all register octets.now }
{
    let mut c = register;
    for pair in octets.chunks_exact(2) {
        c = feed_pair(c, pair);
    }
    c
}

// The register after a slice, octet by octet.
#[tactic(auto, using(crate::proofs::Register::feed_next, crate::proofs::Register::feed_done))]
fn feed_octets(register: u16, octets: &[u8]) -> u16
    ensures { result ≡ feed_all register octets.now }
{
    let mut c = register;
    for x in octets {
        c = feed_octet(c, *x);
    }
    c
}

// The register after a slice, by pairs, and by itself where an octet is left.
#[tactic(auto, using(crate::proofs::Register::feed_split))]
fn feed_rest(register: u16, octets: &[u8]) -> u16
    ensures { result ≡ feed_all register octets.now }
{
    let n = octets.len();
    let (pairs, last) = octets.split_at(n - n % 2);
    feed_octets(feed_pairs(register, pairs), last)
}

// The register after the last k of eight octets, two to eight. They are moved to the top of a word, so that what leaves the register
// before them is 0 and one division does for all.
fn feed_last(register: u16, octets: &[u8], k: usize) -> u16
    requires octets_len { length octets.now ≡ 8 }
    requires le_k { (2 ≤ k) × (k ≤ 8) }
    ensures { result ≡ feed_all register (drop (8 - k) octets.now) }
{
    let s = 64 - 8 * k as u32;
    shift_word(((word(octets) >> s) ^ u64::from(register)) << s)
}

// The register after a slice of any length, so that octets which come in parts can be fed as they come.
// Whole eights first, since a word takes one division; of the fewer than eight that are left, two or more take one too.
#[tactic(auto, using(crate::proofs::Register::feed_split))]
pub fn feed(register: u16, octets: &[u8]) -> u16
    ensures { result ≡ feed_all register octets.now }
{
    let n = octets.len();
    let k = n % 8;
    let (eights, rest) = octets.split_at(n - k);
    let c = feed_eights(register, eights);
    if eights.is_empty() {
        return feed_rest(c, rest);
    }
    if k < 2 {
        return feed_octets(c, rest);
    }
    feed_last(c, &octets[n - 8..], k)
}

// The check sequence of a slice. Its low octet goes on the line first.
pub fn check_sequence(octets: &[u8]) -> u16
    ensures { result ≡ check_sequence octets.now }
{
    !feed(PRESET, octets)
}
