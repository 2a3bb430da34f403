// The running check of a segment, by its kind: before any octet, after one more, and after a run of them. What each kind is:
// specs/Rule; that a run does at once what its octets do one by one: proofs/Checks.
ghost use Rattle.std.specs.Prelude.{◌≡◌, ◌+◌, ◌<◌, ◌≤◌, length};
ghost use Rattle.std.proofs.lemmas.List.Edits.{sets};
ghost use Rattle.deframer.specs.Rule.{blank_of, is_check_of, added};
ghost use Rattle.deframer.specs.Run.{added_all};

pub(crate) fn blank(kind: u8) -> u16
    ensures { result ≡ blank_of kind }
{
    match kind {
        crate::REGISTER => fcs::PRESET,
        _ => 0,
    }
}

// Whether a number can be a check.
pub(crate) fn is_check(kind: u8, check: u16) -> bool
    ensures { result ≡ is_check_of kind check }
{
    kind != crate::SUM || check < 256
}

#[tactic(auto, unfolding(crate::specs::Rule::added))]
pub(crate) fn added(kind: u8, count: usize, check: u16, x: u8) -> u16
    ensures { result ≡ added kind count check x }
{
    match kind {
        crate::SUM => (check % 256 + u16::from(x)) % 256,
        crate::REGISTER => fcs::feed_octet(check, x),
        _ if count == 0 => u16::from(x),
        _ => check,
    }
}

// The octets of a run are put into the buffer from the index `count` on. The sum is taken in the same pass.
pub(crate) fn put_run(kind: u8, count: usize, check: u16, octets: &[u8], buffer: &mut [u8]) -> u16
    requires octets_nonzero { 0 < length octets.now }
    requires octets_in_bounds { count + length octets.now ≤ length buffer.old }
    ensures value { result ≡ added_all kind count check octets.now }
    ensures buffer_after { buffer.new ≡ sets buffer.old count octets.now }
{
    if kind == crate::SUM {
        let sum = octets::put_sum(octets, buffer, count);
        return (check % 256 + sum as u16) % 256;
    }
    octets::put(octets, buffer, count);
    if kind == crate::REGISTER {
        return fcs::feed(check, octets);
    }
    added(kind, count, check, octets[0])
}
