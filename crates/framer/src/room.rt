// Whether a frame fits. The room that is left is counted down, since the octets of a frame may be more than a number holds.
ghost use Rattle.std.specs.Prelude.{◌≡◌, ◌+◌, ◌-◌, ◌*◌, length, nat_le};
ghost use Rattle.framing.specs.Writing.{escaped_one, escaped};
ghost use Rattle.escapes.specs.Escapes.{writing_of};
ghost use Rattle.framer.specs.Write.{framed_by};

use crate::Frame;
use escapes::Escapes;

impl Frame<'_> {
    // Whether the frame fits into `room` octets. Its octets are counted only where the longest frame of so many would not fit.
    pub(crate) fn fits(self, e: Escapes, room: usize) -> bool
        ensures { result ≡ nat_le (length (framed_by e self.entry)) room }
    {
        if longest_fits(self.head.len(), self.octets.len(), self.tail.len(), room) {
            return true;
        }
        let inside = room.saturating_sub(usize::from(!self.at_flag));
        let behind_head = left(e, self.head, inside);
        let behind_octets = left(e, self.octets, behind_head);
        let behind_tail = left(e, self.tail, behind_octets);
        0 < behind_tail
    }
}

// Whether the longest frame of so many octets fits: two flags, and each octet escaped.
fn longest_fits(head: usize, octets: usize, tail: usize, room: usize) -> bool
    ensures { result ≡ nat_le (2 * (head + (octets + tail)) + 2) room }
{
    tail < (room / 2).saturating_sub(head).saturating_sub(octets)
}

// What octets, escaped, leave of `room`; 0 where they do not fit. Where they do not even as they are, none of them is looked at.
fn left(e: Escapes, octets: &[u8], room: usize) -> usize
    ensures { result ≡ room - length (escaped (writing_of e) octets.now) }
{
    if room < octets.len() {
        return 0;
    }
    (room - octets.len()).saturating_sub(escape_count(e, octets))
}

// How many of the octets are escaped, and so take one more each on the line.
fn escape_count(e: Escapes, octets: &[u8]) -> usize
    ensures { length octets.now + result ≡ length (escaped (writing_of e) octets.now) }
{
    let mut n = 0;
    for x in octets {
        n += one_if_escaped(e, *x);
    }
    n
}

pub(crate) fn one_if_escaped(e: Escapes, x: u8) -> usize
    ensures { 1 + result ≡ length (escaped_one (writing_of e) x) }
{
    usize::from(e.escapes(x))
}
