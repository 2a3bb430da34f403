// The four events of a link: start, timer, payload and arrival. Each refuses in the order 27, 26, 23, 21, 20, 22 and then goes by the step table.
// Each takes any link value, and any reply buffer; where it refuses, the link and the buffer are as they came.
ghost use Rattle.std.specs.Prelude.{◌≡◌, ◌++◌};
ghost use Rattle.common.specs.Refusals.{guarded};
ghost use Rattle.dlc_table.specs.Answers.{done};
ghost use Rattle.dlc_table.specs.Refused.{code_of};
ghost use Rattle.dlc_table.specs.Events.{call_refusals, payload_refusals};
ghost use Rattle.dlc_queue.specs.Queue.{slots};
ghost use Rattle.dlc.specs.View.{view};
ghost use Rattle.dlc.specs.Calls.{StartCall, TimerCall, PayloadCall, ArrivalCall};

use crate::{Link, Outcome};
use dlc_answer::Answer;
use dlc_packet::Kind;
use dlc_table::{DONE, Refusal, State};

impl Link {
    // The upper layer starts the link.
    pub fn start(mut self, reply: &mut [u8]) -> Outcome
        ensures { StartCall view self reply.old reply.new result.link result.answer }
    {
        if let Err(refusal) = self.check(reply.len()) {
            return self.refused(refusal);
        }
        match self.state {
            State::Idle => {
                self.state = State::Reset;
                self.done()
            }
            State::Reset | State::Data | State::Wait => self.refused(Refusal::NoEntry),
        }
    }

    // The timer runs out. An event may change the link that it is handed (`mut self`), which this one leaves as it is.
    pub fn timer(mut self, reply: &mut [u8]) -> Outcome
        ensures { TimerCall view self reply.old reply.new result.link result.answer }
    {
        if let Err(refusal) = self.check(reply.len()) {
            return self.refused(refusal);
        }
        match self.state {
            State::Idle | State::Data => self.refused(Refusal::NoEntry),
            State::Reset => self.send_control(Answer::silent(DONE), dlc_packet::RESET, reply),
            State::Wait => self.send_all(reply),
        }
    }

    // The upper layer hands a payload down.
    pub fn payload(self, p: &[u8], reply: &mut [u8]) -> Outcome
        ensures { PayloadCall view self p.now reply.old reply.new result.link result.answer }
    {
        if let Err(refusal) = self.check_payload(p, reply.len()) {
            return self.refused(refusal);
        }
        self.queue(p, reply)
    }

    // A packet arrives.
    pub fn arrival(mut self, packet: &[u8], reply: &mut [u8]) -> Outcome
        ensures { ArrivalCall view self packet.now reply.old reply.new result.link result.answer }
    {
        if let Err(refusal) = self.check(reply.len()) {
            return self.refused(refusal);
        }
        match dlc_packet::kind_of(packet) {
            Kind::Invalid => self.refused(Refusal::BadPacket),
            Kind::Reset => self.clear(reply),
            Kind::ResetAck => self.reset_ack(),
            Kind::Data(x) => self.data(x, reply),
            Kind::Dack(x) => self.dack(x),
        }
    }

    // What all calls refuse.
    fn check(self, room: usize) -> Result<(), Refusal>
        ensures { code_of result ≡ guarded (call_refusals slots (view self) room) (λ n. n) done }
    {
        if !self.well_formed() {
            return Err(Refusal::BadLink);
        }
        if room < Link::REPLY_SIZE {
            return Err(Refusal::ReplyTooSmall);
        }
        Ok(())
    }

    // What a payload call refuses: that, and then what is its own.
    fn check_payload(self, p: &[u8], room: usize) -> Result<(), Refusal>
        ensures { code_of result ≡ guarded (call_refusals slots (view self) room ++ payload_refusals slots (view self) p.now) (λ n. n) done }
    {
        self.check(room)?;
        if Link::MAX_PAYLOAD < p.len() {
            return Err(Refusal::PayloadTooLong);
        }
        if !self.is_open() {
            return Err(Refusal::NotOpen);
        }
        if Link::SLOTS <= self.queue.len() {
            return Err(Refusal::QueueFull);
        }
        Ok(())
    }
}
