// A link in plain numbers, for C programs: its state is a number, and any number may come.
// The four events are those of the crate dlc. A state that is none of the four makes the value ill formed: answered with 27, as there.
#![tactic(auto)]

ghost use Rattle.std.specs.Prelude.{◌≡◌};
ghost use Rattle.dlc_table.specs.Refused.{number_of as refusal_number};
ghost use Rattle.dlc_table.specs.Events.{refuse};
ghost use Rattle.dlc.specs.Calls.{answer_of, MakeCall, StartCall, TimerCall, PayloadCall, ArrivalCall};
ghost use Rattle.dlc_plain.specs.Plain.{number_of, plain_of, outcome_of, IsRead, view};

use dlc::{Link, Outcome};
use dlc_answer::Answer;
use dlc_queue::Queue;
use dlc_table::{Refusal, State};

// The numbers of the states, in the paper's order.
pub const STATE_IDLE: u8 = 0;

pub const STATE_RESET: u8 = 1;

pub const STATE_DATA: u8 = 2;

pub const STATE_WAIT: u8 = 3;

#[repr(C)]
#[derive(Clone, Copy)]
pub struct PlainLink {
    pub state: u8,
    pub queue: Queue,
    pub base: u8,
    pub expected: u8,
    pub edition: u8,
}

#[repr(C)]
#[derive(Clone, Copy)]
pub struct PlainOutcome {
    pub link: PlainLink,
    pub answer: Answer,
}

impl PlainLink {
    // Makes a link of an edition. Where that is unknown, BAD_EDITION, and a link of the first edition.
    pub fn make(edition: u8) -> PlainOutcome
        ensures { MakeCall view edition result.link result.answer }
    {
        Link::make(edition).into()
    }

    // The upper layer starts the link.
    pub fn start(self, reply: &mut [u8]) -> PlainOutcome
        ensures { StartCall view self reply.old reply.new result.link result.answer }
    {
        match Link::try_from(self) {
            Ok(link) => link.start(reply).into(),
            Err(refusal) => self.refused(refusal),
        }
    }

    // The timer runs out.
    pub fn timer(self, reply: &mut [u8]) -> PlainOutcome
        ensures { TimerCall view self reply.old reply.new result.link result.answer }
    {
        match Link::try_from(self) {
            Ok(link) => link.timer(reply).into(),
            Err(refusal) => self.refused(refusal),
        }
    }

    // The upper layer hands a payload down.
    pub fn payload(self, p: &[u8], reply: &mut [u8]) -> PlainOutcome
        ensures { PayloadCall view self p.now reply.old reply.new result.link result.answer }
    {
        match Link::try_from(self) {
            Ok(link) => link.payload(p, reply).into(),
            Err(refusal) => self.refused(refusal),
        }
    }

    // A packet arrives.
    pub fn arrival(self, packet: &[u8], reply: &mut [u8]) -> PlainOutcome
        ensures { ArrivalCall view self packet.now reply.old reply.new result.link result.answer }
    {
        match Link::try_from(self) {
            Ok(link) => link.arrival(packet, reply).into(),
            Err(refusal) => self.refused(refusal),
        }
    }

    // A value that is no link comes back as it is.
    fn refused(self, refusal: Refusal) -> PlainOutcome
        ensures { result ≡ record { link = self; answer = answer_of (refuse (view self) (refusal_number refusal)) } }
    {
        PlainOutcome {
            link: self,
            answer: Answer::silent(refusal.into()),
        }
    }
}

// The link that the numbers say, where the state is one of the four.
impl TryFrom<PlainLink> for Link {
    type Error = Refusal;

    ghost try_from_gives = { IsRead };

    fn try_from(plain: PlainLink) -> Result<Link, Refusal> {
        let state = match plain.state {
            STATE_IDLE => State::Idle,
            STATE_RESET => State::Reset,
            STATE_DATA => State::Data,
            STATE_WAIT => State::Wait,
            _ => return Err(Refusal::BadLink),
        };
        Ok(Link {
            state,
            queue: plain.queue,
            base: plain.base,
            expected: plain.expected,
            edition: plain.edition,
        })
    }
}

impl From<Link> for PlainLink {
    ghost from_gives = { λ link plain. plain ≡ plain_of link };

    fn from(link: Link) -> PlainLink {
        PlainLink {
            state: number_of(link.state),
            queue: link.queue,
            base: link.base,
            expected: link.expected,
            edition: link.edition,
        }
    }
}

impl From<Outcome> for PlainOutcome {
    ghost from_gives = { λ outcome plain. plain ≡ outcome_of outcome };

    fn from(outcome: Outcome) -> PlainOutcome {
        PlainOutcome {
            link: outcome.link.into(),
            answer: outcome.answer,
        }
    }
}

// The number of a state. No From: neither of the two types is of this crate.
fn number_of(state: State) -> u8
    ensures { result ≡ number_of state }
{
    match state {
        State::Idle => STATE_IDLE,
        State::Reset => STATE_RESET,
        State::Data => STATE_DATA,
        State::Wait => STATE_WAIT,
    }
}
