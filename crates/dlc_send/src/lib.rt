// The queue of a DLC link sent: its payloads as DATA packets, one after another in a lent buffer. Definitions: specs/.
#![tactic(auto)]

ghost use Rattle.std.specs.Prelude.{◌≡◌, true, map, ◌+◌, ◌≤◌, ◌<◌, ◌&&◌, ltb, leb, length};
ghost use Rattle.std.proofs.lemmas.List.Edits.{sets};
ghost use Rattle.dlc_packet.specs.Numbers.{modulus};
ghost use Rattle.dlc_packet.specs.Packet.{data_packet, data_packets};
ghost use Rattle.dlc_queue.specs.Queue.{slots, reply_size, octets_of, all_short, formed};
ghost use Rattle.dlc_send.specs.Send.{Sent, Written};

use dlc_packet::{DATA, MODULUS};
use dlc_queue::{Payload, Queue};

// Writes every payload as a DATA packet to the front of reply, oldest first, the oldest with the number base; returns the lengths.
pub fn send(q: Queue, base: u8, reply: &mut [u8]) -> [usize; Queue::SLOTS]
    ensures { Sent q base reply.old reply.new result }
{
    if !sendable(q, base, reply.len()) {
        return [0; Queue::SLOTS];
    }
    send_payloads(&q.slots[..q.count], base, reply)
}

// Whether this is a queue, base a number, and room enough for a full queue of the longest payloads.
fn sendable(q: Queue, base: u8, room: usize) -> bool
    ensures { result ≡ (formed q && (ltb base modulus && leb reply_size room)) }
{
    q.well_formed() && base < MODULUS && Queue::REPLY_SIZE <= room
}

// Writes DATA x with a payload at index at, and returns the packet's length.
fn put_data(payload: &[u8], x: u8, out: &mut [u8], at: usize) -> usize
    requires { (x < modulus) × (at + 1 + length payload.now ≤ length out.old) }
    ensures { (result ≡ 1 + length payload.now) × (out.new ≡ sets out.old at (data_packet x payload.now)) }
{
    out[at] = DATA + x;
    octets::put(payload, out, at + 1);
    1 + payload.len()
}

// Writes payloads as DATA packets with the numbers from base on, and returns their lengths.
fn send_payloads(payloads: &[Payload], base: u8, out: &mut [u8]) -> [usize; Queue::SLOTS]
    requires { (length payloads.now ≤ slots) × ((all_short payloads.now ≡ true) × ((base < modulus) × (reply_size ≤ length out.old))) }
    ensures { Written (data_packets base (map octets_of payloads.now)) out.old out.new result }
{
    let mut lengths = [0; Queue::SLOTS];
    let mut x = base;
    let mut at = 0;
    for (i, p) in payloads.iter().enumerate() {
        let length = put_data(p.as_slice(), x, out, at);
        lengths[i] = length;
        at += length;
        x = dlc_packet::advanced(x, 1);
    }
    lengths
}
