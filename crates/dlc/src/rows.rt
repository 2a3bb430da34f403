// The rows of the step table: what an event does that no refusal stops. Each promises its row (dlc_table/specs/Events).
ghost use Rattle.std.specs.Prelude.{◌≡◌, true, ◌≤◌, ◌<◌, length};
ghost use Rattle.dlc_packet.specs.Packet.{max_payload};
ghost use Rattle.dlc_table.specs.Events.{is_open, cleared, reset_ack_step, judged, data_step, without, distance_of, acknowledged, dack_step, timer_step, with_payload, queued};
ghost use Rattle.dlc_queue.specs.Queue.{slots, reply_size, held};
ghost use Rattle.dlc.specs.View.{well_formed, view};
ghost use Rattle.dlc.specs.Calls.{Returns, Meets};

use crate::{Link, Outcome, open_state};
use dlc_answer::Answer;
use dlc_table::{DONE, OTHER_NUMBER, Refusal, State};

impl Link {
    // RESET: clear.
    pub(crate) fn clear(self, reply: &mut [u8]) -> Outcome
        requires { (well_formed self ≡ true) × (reply_size ≤ length reply.old) }
        ensures { Meets view (cleared (view self)) self reply.old reply.new result.link result.answer }
    {
        let link = Link {
            state: State::Data,
            queue: self.queue.emptied(),
            base: 0,
            expected: 0,
            ..self
        };
        let answer = Answer {
            upper_reset: true,
            ..Answer::silent(DONE)
        };
        link.send_control(answer, dlc_packet::RESET_ACK, reply)
    }

    // RESET_ACK opens a link that waits for it.
    pub(crate) fn reset_ack(self) -> Outcome
        requires { well_formed self ≡ true }
        ensures { Returns view (reset_ack_step (view self) self.state) self result.link result.answer }
    {
        match self.state {
            State::Reset => self.in_state(State::Data).done(),
            State::Idle | State::Data | State::Wait => self.refused(Refusal::NoEntry),
        }
    }

    // DATA x at a link in any state.
    pub(crate) fn data(self, x: u8, reply: &mut [u8]) -> Outcome
        requires { (well_formed self ≡ true) × (reply_size ≤ length reply.old) }
        ensures { Meets view (data_step (view self) self.state x) self reply.old reply.new result.link result.answer }
    {
        if self.is_open() {
            self.judge(x, reply)
        } else {
            self.refused(Refusal::NoEntry)
        }
    }

    // DATA x at an open link: judge. A repeated DATA is answered too: if its DACK was lost, the sender repeats until one comes.
    fn judge(mut self, x: u8, reply: &mut [u8]) -> Outcome
        requires { (well_formed self ≡ true) × ((is_open self.state ≡ true) × (reply_size ≤ length reply.old)) }
        ensures { Meets view (judged (view self) x) self reply.old reply.new result.link result.answer }
    {
        if x == self.expected {
            self.expected = dlc_packet::advanced(self.expected, 1);
            let dack = dlc_packet::DACK + dlc_packet::dack_number(self.edition, self.expected);
            let answer = Answer {
                delivered: true,
                ..Answer::silent(DONE)
            };
            self.send_control(answer, dack, reply)
        } else {
            let dack = dlc_packet::DACK + dlc_packet::dack_number(self.edition, self.expected);
            self.send_control(Answer::silent(OTHER_NUMBER), dack, reply)
        }
    }

    // DACK x at a link in any state.
    pub(crate) fn dack(self, x: u8) -> Outcome
        requires { well_formed self ≡ true }
        ensures { Returns view (dack_step (view self) self.state x) self result.link result.answer }
    {
        match self.state {
            State::Idle | State::Reset | State::Data => self.refused(Refusal::NoEntry),
            State::Wait => self.acknowledge(x),
        }
    }

    // DACK x while payloads wait: remove.
    fn acknowledge(self, x: u8) -> Outcome
        requires { (well_formed self ≡ true) × (self.state ≡ State.Wait) }
        ensures { Returns view (acknowledged (view self) (distance_of (view self) x)) self result.link result.answer }
    {
        let n = dlc_packet::dack_distance(self.edition, self.base, x);
        if n == 0 {
            return self.refused(Refusal::NoEntry);
        }
        if self.queue.len() < usize::from(n) {
            return self.refused(Refusal::NoEntry);
        }
        self.without(n).done()
    }

    // The link without its n oldest payloads.
    fn without(self, n: u8) -> Link
        requires { (well_formed self ≡ true) × ((self.state ≡ State.Wait) × (n ≤ held self.queue)) }
        ensures { view result ≡ without (view self) n }
    {
        let queue = self.queue.remove(usize::from(n));
        Link {
            state: open_state(queue.len()),
            queue,
            base: dlc_packet::advanced(self.base, n),
            ..self
        }
    }

    // The link with p queued behind the others.
    fn with_payload(self, p: &[u8]) -> Link
        requires { (well_formed self ≡ true) × ((held self.queue < slots) × (length p.now ≤ max_payload)) }
        ensures { view result ≡ with_payload (view self) p.now }
    {
        Link {
            state: State::Wait,
            queue: self.queue.push(p),
            ..self
        }
    }

    // A payload at an open link with room for it: queue, and send it at once, with the number behind those of the others. The timer repeats it
    // with them.
    pub(crate) fn queue(self, p: &[u8], reply: &mut [u8]) -> Outcome
        requires { (well_formed self ≡ true) × ((held self.queue < slots) × ((length p.now ≤ max_payload) × (reply_size ≤ length reply.old))) }
        ensures { Meets view (queued (view self) p.now) self reply.old reply.new result.link result.answer }
    {
        let x = dlc_packet::advanced(self.base, self.queue.len() as u8);
        self.with_payload(p)
            .send_one(Answer::silent(DONE), dlc_packet::DATA + x, p, reply)
    }

    // The timer while payloads wait: send all.
    pub(crate) fn send_all(self, reply: &mut [u8]) -> Outcome
        requires { (well_formed self ≡ true) × (reply_size ≤ length reply.old) }
        ensures { Meets view (timer_step (view self) State.Wait) self reply.old reply.new result.link result.answer }
    {
        let lengths = dlc_send::send(self.queue, self.base, reply);
        Outcome {
            link: self,
            answer: Answer {
                sent: self.queue.len(),
                lengths,
                ..Answer::silent(DONE)
            },
        }
    }
}
