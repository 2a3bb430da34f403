// What an event of a DLC link answers, and the part of a packet that it delivers. Definitions: specs/. Its numbers are those of dlc_table.
#![tactic(auto)]

ghost use Rattle.std.specs.Prelude.{◌≡◌};
ghost use Rattle.dlc_answer.specs.Delivered.{delivered_part};
ghost use Rattle.dlc_answer.specs.Silent.{silent};

use dlc_queue::Queue;

// What an event answers: its number; whether the upper layer is told to reset; whether the lent packet delivers a payload;
// how many packets stand at the front of the reply buffer, and their lengths, the unused ones 0.
#[repr(C)]
#[derive(Clone, Copy)]
pub struct Answer {
    pub code: u8,
    pub upper_reset: bool,
    pub delivered: bool,
    pub sent: usize,
    pub lengths: [usize; Queue::SLOTS],
}

impl Answer {
    // A number alone: nothing sent, nothing for the upper layer.
    pub fn silent(code: u8) -> Answer
        ensures { result ≡ silent code }
    {
        Answer {
            code,
            upper_reset: false,
            delivered: false,
            sent: 0,
            lengths: [0; Queue::SLOTS],
        }
    }

    // The payload that an arrival delivered, as a part of its packet; empty where it delivered none.
    pub fn payload(self, packet: &[u8]) -> &[u8]
        ensures { result.now ≡ delivered_part self.delivered packet.now }
    {
        match packet {
            [_, payload @ ..] if self.delivered => payload,
            _ => &packet[..0],
        }
    }
}
