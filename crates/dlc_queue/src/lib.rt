// The queue of a DLC link: at most SLOTS payloads of at most 256 octets, oldest first, by value.
// It is sent by the crate dlc_send. Definitions: specs/. Every public function takes any queue value whatever, also one that no call has made.
#![tactic(auto)]

ghost use Rattle.std.specs.Prelude.{◌≡◌, true, ◌-◌, ◌≤◌, length, take, drop};
ghost use Rattle.dlc_packet.specs.Packet.{max_payload};
ghost use Rattle.dlc_queue.specs.Queue.{slots, octets_of, held, all_short, formed, at_rest, fresh, emptied, Pushed, Removed};

use dlc_packet::{MAX_PACKET, MAX_PAYLOAD};

// A slot: a payload is the first len octets, the others are free. C programs hold it in this layout.
#[repr(C)]
#[derive(Clone, Copy)]
pub struct Payload {
    pub len: usize,
    pub octets: [u8; MAX_PAYLOAD],
}

impl Payload {
    // Its octets: all of the slot's where the length is too large.
    pub fn as_slice(&self) -> &[u8]
        ensures { result.now ≡ octets_of self.now }
    {
        &self.octets[..self.len.min(MAX_PAYLOAD)]
    }
}

// The first count slots hold payloads, oldest first; the others are free. Its methods take it by value, as the link's do: where they took a
// reference, the compiler kept the link around it whole, and the timer took a third longer.
#[repr(C)]
#[derive(Clone, Copy)]
pub struct Queue {
    pub count: usize,
    pub slots: [Payload; Queue::SLOTS],
}

impl Queue {
    pub const SLOTS: usize = 15;

    // Octets that all slots take as DATA packets: what a reply buffer must have.
    pub const REPLY_SIZE: usize = Queue::SLOTS * MAX_PACKET;

    // An empty queue.
    pub fn new() -> Self
        ensures { result ≡ fresh }
    {
        let p = Payload {
            len: 0,
            octets: [0; MAX_PAYLOAD],
        };
        Queue {
            count: 0,
            slots: [p; Queue::SLOTS],
        }
    }

    // How many payloads it holds.
    pub fn len(self) -> usize
        ensures { result ≡ held self }
    {
        self.count
    }

    // Whether this may be the queue of a link that was not opened yet: it holds nothing.
    pub fn at_rest(self) -> bool
        ensures { result ≡ at_rest self }
    {
        self.count == 0
    }

    // Frees all slots, whatever they hold.
    pub fn emptied(self) -> Queue
        ensures { result ≡ emptied self }
    {
        Queue { count: 0, ..self }
    }

    // Whether this is a queue: count and lengths within their limits.
    #[tactic(auto, unfolding(crate::specs::Queue::formed))]
    pub fn well_formed(self) -> bool
        ensures { result ≡ formed self }
    {
        self.count <= Queue::SLOTS && all_short(&self.slots[..self.count])
    }

    // Queues p behind the others; without room for it, or where it is too long, the queue comes back as it is.
    #[tactic(auto, using(crate::proofs::Slots::pushed_room))]
    pub fn push(mut self, p: &[u8]) -> Queue
        ensures { Pushed self p.now result }
    {
        if Queue::SLOTS <= self.count {
            return self;
        }
        if MAX_PAYLOAD < p.len() {
            return self;
        }
        self.slots[self.count] = payload_of(p);
        self.count += 1;
        self
    }

    // Removes the n oldest payloads; where there are fewer, or this is no queue, it comes back as it is.
    pub fn remove(mut self, n: usize) -> Queue
        ensures { Removed self n result }
    {
        let count = self.count;
        if Queue::SLOTS < count {
            return self;
        }
        if count < n {
            return self;
        }
        // of `copy_within` the compiler makes a call of memmove, as of the slice's copy (crate octets)
        let before = self.slots;
        for i in 0..count - n {
            self.slots[i] = before[n + i];
        }
        self.count = count - n;
        self
    }
}

// Whether none of these payloads is too long.
fn all_short(payloads: &[Payload]) -> bool
    ensures { result ≡ all_short payloads.now }
{
    payloads.iter().all(|p| p.len <= MAX_PAYLOAD)
}

// A payload that holds the octets of p.
fn payload_of(p: &[u8]) -> Payload
    requires { length p.now ≤ max_payload }
    ensures { (result.len ≡ length p.now) × (octets_of result ≡ p.now) }
{
    let mut slot = [0; MAX_PAYLOAD];
    octets::put(p, &mut slot, 0);
    Payload {
        len: p.len(),
        octets: slot,
    }
}
