// Octets, escaped, put down from an index of the buffer on; the index after them. The buffer has room for them and for one octet
// more, since a flag always follows.
ghost use Rattle.std.specs.Prelude.{◌≡◌, ◌+◌, ◌%◌, ◌<◌, ◌≤◌, length, if◌then◌else◌};
ghost use Rattle.std.proofs.lemmas.List.Edits.{sets};
ghost use Rattle.framing.specs.Writing.{escaped_one, escaped};
ghost use Rattle.escapes.specs.Escapes.{is_escaped, behind, writing_of};

use escapes::Escapes;

// So many octets are looked at together.
const BLOCK: usize = 8;

// And so many of what is left behind the last block.
const HALF: usize = 4;

// Whole blocks first, then what is left.
pub(crate) fn put_octets(e: Escapes, octets: &[u8], out: &mut [u8], at: usize) -> usize
    requires { at + length (escaped (writing_of e) octets.now) < length out.old }
    ensures value { result ≡ at + length (escaped (writing_of e) octets.now) }
    ensures out_after { out.new ≡ sets out.old at (escaped (writing_of e) octets.now) }
{
    let n = octets.len();
    let (blocks, rest) = octets.split_at(n - n % BLOCK);
    let mid = put_blocks(e, blocks, out, at);
    put_rest(e, rest, out, mid)
}

// Whole blocks.
fn put_blocks(e: Escapes, octets: &[u8], out: &mut [u8], at: usize) -> usize
    requires octets_len { length octets.now % 8 ≡ 0 }
    requires octets_in_bounds { at + length (escaped (writing_of e) octets.now) < length out.old }
    ensures value { result ≡ at + length (escaped (writing_of e) octets.now) }
    ensures out_after { out.new ≡ sets out.old at (escaped (writing_of e) octets.now) }
{
    let mut to = at;
    for (i, block) in octets.chunks_exact(BLOCK).enumerate() {
        let many = many_escaped(i, to.wrapping_sub(at));
        to = put_block(e, many, block, out, to);
    }
    to
}

// Whether more than one octet in a block was escaped so far: so many blocks took so many places. It says nothing of what is put
// down, only which way is the faster one.
fn many_escaped(blocks: usize, places: usize) -> bool {
    blocks < places.wrapping_sub(blocks.wrapping_mul(BLOCK))
}

// One block: most have no octet that is escaped, and go out as they are.
fn put_block(e: Escapes, many: bool, octets: &[u8], out: &mut [u8], at: usize) -> usize
    requires octets_len { length octets.now ≡ 8 }
    requires octets_in_bounds { at + length (escaped (writing_of e) octets.now) < length out.old }
    ensures value { result ≡ at + length (escaped (writing_of e) octets.now) }
    ensures out_after { out.new ≡ sets out.old at (escaped (writing_of e) octets.now) }
{
    if e.all_plain(octets) {
        return put_plain(&eight(octets), out, at);
    }
    put_each(e, many, octets, out, at)
}

// The octets of a block. All are read before the first is put down, so that the compiler moves them at once.
fn eight(o: &[u8]) -> [u8; 8]
    requires { length o.now ≡ 8 }
    ensures { result ≡ o.now }
{
    [o[0], o[1], o[2], o[3], o[4], o[5], o[6], o[7]]
}

// Octets that go out as they are.
fn put_plain(octets: &[u8], out: &mut [u8], at: usize) -> usize
    requires { at + length octets.now ≤ length out.old }
    ensures value { result ≡ at + length octets.now }
    ensures out_after { out.new ≡ sets out.old at octets.now }
{
    let end = at + octets.len();
    out[at..end].copy_from_slice(octets);
    end
}

// What is left: half a block as it is, where that is there and none of it is escaped; the others one by one.
fn put_rest(e: Escapes, octets: &[u8], out: &mut [u8], at: usize) -> usize
    requires { at + length (escaped (writing_of e) octets.now) < length out.old }
    ensures value { result ≡ at + length (escaped (writing_of e) octets.now) }
    ensures out_after { out.new ≡ sets out.old at (escaped (writing_of e) octets.now) }
{
    if octets.len() < HALF {
        return put_each(e, false, octets, out, at);
    }
    let (half, rest) = octets.split_at(HALF);
    if e.all_plain(half) {
        let mid = put_plain(half, out, at);
        return put_each(e, false, rest, out, mid);
    }
    put_each(e, true, octets, out, at)
}

// Octets one by one.
pub(crate) fn put_each(e: Escapes, many: bool, octets: &[u8], out: &mut [u8], at: usize) -> usize
    requires { at + length (escaped (writing_of e) octets.now) < length out.old }
    ensures value { result ≡ at + length (escaped (writing_of e) octets.now) }
    ensures out_after { out.new ≡ sets out.old at (escaped (writing_of e) octets.now) }
{
    let mut to = at;
    for x in octets {
        to = put_octet(e, many, *x, out, to);
    }
    to
}

// One octet. Where few are escaped the machine foretells a branch; where many are it can't.
fn put_octet(e: Escapes, many: bool, x: u8, out: &mut [u8], at: usize) -> usize
    requires { at + length (escaped_one (writing_of e) x) < length out.old }
    ensures value { result ≡ at + length (escaped_one (writing_of e) x) }
    ensures out_after { out.new ≡ sets out.old at (escaped_one (writing_of e) x) }
{
    if many {
        return put_either(e, x, out, at);
    }
    if e.escapes(x) {
        out[at] = e.escape;
        out[at + 1] = second(e, x, x);
        return at + 2;
    }
    out[at] = x;
    at + 1
}

// One octet without a branch: two places are written in any case, the second with what stands there where the octet takes one.
fn put_either(e: Escapes, x: u8, out: &mut [u8], at: usize) -> usize
    requires { at + length (escaped_one (writing_of e) x) < length out.old }
    ensures value { result ≡ at + length (escaped_one (writing_of e) x) }
    ensures out_after { out.new ≡ sets out.old at (escaped_one (writing_of e) x) }
{
    let next = at + 1;
    let kept = out[next];
    out[at] = first(e, x);
    out[next] = second(e, x, kept);
    next + crate::room::one_if_escaped(e, x)
}

// What stands first on the line for an octet.
fn first(e: Escapes, x: u8) -> u8
    ensures { result ≡ (if is_escaped e x then e.escape else x) }
{
    if e.escapes(x) { e.escape } else { x }
}

// What stands second for an octet that is escaped; for any other what was there. Each test is made, so that there is no branch.
fn second(e: Escapes, x: u8, kept: u8) -> u8
    ensures { result ≡ (if is_escaped e x then behind e x else kept) }
{
    let d = if e.others & (x == e.fourth) {
        e.behind_fourth
    } else {
        kept
    };
    let c = if e.others & (x == e.third) {
        e.behind_third
    } else {
        d
    };
    let b = if x == e.escape { e.behind_escape } else { c };
    if x == e.flag { e.behind_flag } else { b }
}
