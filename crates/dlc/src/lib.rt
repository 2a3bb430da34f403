// One end of a DLC link, by value: each event takes a link and gives it back with an answer.
// Here: the types, how a link is made, and how an outcome is; the four events are in events.rt, the rows of the step table that they come to in
// rows.rt, what a well-formed link is in form.rt.
// Definitions: specs/ (View: when a link value is well formed, and how the step table sees it; Calls: what each call promises). The step table
// is in the crate dlc_table, the queue in dlc_queue; no field of the queue is looked at here.
#![tactic(auto)]

ghost use Rattle.std.specs.Prelude.{◌≡◌, true, cond, [], ◌∷◌, ◌+◌, ◌≤◌, length, eqb};
ghost use Rattle.dlc_packet.specs.Numbers.{edition_of, known_edition};
ghost use Rattle.dlc_table.specs.Model.{fresh};
ghost use Rattle.dlc_table.specs.Answers.{done};
ghost use Rattle.dlc_table.specs.Refused.{number_of};
ghost use Rattle.dlc_table.specs.Events.{is_open, effect, refuse};
ghost use Rattle.dlc.specs.View.{view, relinked};
ghost use Rattle.dlc.specs.Calls.{given, OneSent, MakeCall};

use dlc_answer::Answer;
use dlc_packet::EDITION_1;
use dlc_queue::Queue;
use dlc_table::{DONE, Refusal, State};

mod events;
mod form;
mod rows;

// A link; any value of this type may be handed to an event, which answers BAD_LINK where it is none.
#[derive(Clone, Copy)]
pub struct Link {
    pub state: State,
    pub queue: Queue,
    // The number of the oldest queued payload, or the next to be given where none is queued.
    pub base: u8,
    // The number of the DATA that is expected next.
    pub expected: u8,
    // How DACK is read: EDITION_1 or EDITION_2, set when the link is made.
    pub edition: u8,
}

#[derive(Clone, Copy)]
pub struct Outcome {
    pub link: Link,
    pub answer: Answer,
}

impl Link {
    // Payloads that the queue holds, octets of the longest payload, octets that a reply buffer must have.
    pub const SLOTS: usize = Queue::SLOTS;

    pub const MAX_PAYLOAD: usize = dlc_packet::MAX_PAYLOAD;

    pub const REPLY_SIZE: usize = Queue::REPLY_SIZE;

    // Makes a link of an edition. Where that is unknown, BAD_EDITION, and a link of the first edition.
    pub fn make(edition: u8) -> Outcome
        ensures { MakeCall view edition result.link result.answer }
    {
        if dlc_packet::known_edition(edition) {
            fresh_link(edition).done()
        } else {
            fresh_link(EDITION_1).refused(Refusal::BadEdition)
        }
    }

    // Whether payloads can pass: DLDATA and DLDWAIT.
    fn is_open(self) -> bool
        ensures { result ≡ is_open self.state }
    {
        matches!(self.state, State::Data | State::Wait)
    }

    // The link in another state.
    fn in_state(self, state: State) -> Link
        ensures { result ≡ relinked self state self.queue self.base self.expected }
    {
        Link { state, ..self }
    }

    // Gives the link back done: nothing sent, nothing for the upper layer.
    fn done(self) -> Outcome
        ensures { result ≡ given self (effect done [] (view self)) }
    {
        Outcome {
            link: self,
            answer: Answer::silent(DONE),
        }
    }

    // Gives the link back with a refusal.
    fn refused(self, refusal: Refusal) -> Outcome
        ensures { result ≡ given self (refuse (view self) (number_of refusal)) }
    {
        Outcome {
            link: self,
            answer: Answer::silent(refusal.into()),
        }
    }

    // Gives the link back with one packet that is a control octet and no payload.
    fn send_control(self, answer: Answer, control: u8, reply: &mut [u8]) -> Outcome
        requires { 1 ≤ length reply.old }
        ensures { OneSent self answer.code answer.«upper_reset» answer.delivered (control ∷ []) reply.old reply.new result }
    {
        self.send_one(answer, control, b"", reply)
    }

    // Gives the link back with one packet: a control octet, and a payload behind it. The answer says the rest.
    fn send_one(self, answer: Answer, control: u8, payload: &[u8], reply: &mut [u8]) -> Outcome
        requires { 1 + length payload.now ≤ length reply.old }
        ensures { OneSent self answer.code answer.«upper_reset» answer.delivered (control ∷ payload.now) reply.old reply.new result }
    {
        reply[0] = control;
        octets::put(payload, reply, 1);
        let mut lengths = [0; Queue::SLOTS];
        lengths[0] = 1 + payload.len();
        Outcome {
            link: self,
            answer: Answer {
                sent: 1,
                lengths,
                ..answer
            },
        }
    }
}

// A link before any event.
fn fresh_link(edition: u8) -> Link
    requires { known_edition edition ≡ true }
    ensures { view result ≡ fresh (edition_of edition) }
{
    Link {
        state: State::Idle,
        queue: Queue::new(),
        base: 0,
        expected: 0,
        edition,
    }
}

// The state of an open link with a queue of n payloads.
fn open_state(n: usize) -> State
    ensures { result ≡ cond (eqb n 0) State.Data State.Wait }
{
    if n == 0 { State::Data } else { State::Wait }
}
