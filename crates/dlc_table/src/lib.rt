// The states of a DLC link, and the numbers that its events answer. The step table over them is in specs/ (Model: a link as the paper has it;
// Events: the table; Runs: lists of events), its laws and worked cases are in proofs/.
#![tactic(auto)]

ghost use Rattle.std.specs.Prelude.{◌≡◌};
ghost use Rattle.dlc_table.specs.Refused.{number_of};

// DLIDLE, DLRESET, DLDATA, DLDWAIT
#[derive(Clone, Copy, Debug, PartialEq, Eq)]
pub enum State {
    Idle,
    Reset,
    Data,
    Wait,
}

// The numbers that events answer, BAD_EDITION where a link is made; all but DONE and OTHER_NUMBER are refusals, which change nothing.
pub const DONE: u8 = 0;

pub const NOT_OPEN: u8 = 20;

pub const PAYLOAD_TOO_LONG: u8 = 21;

pub const QUEUE_FULL: u8 = 22;

pub const BAD_PACKET: u8 = 23;

pub const NO_ENTRY: u8 = 24;

pub const OTHER_NUMBER: u8 = 25;

pub const REPLY_TOO_SMALL: u8 = 26;

pub const BAD_LINK: u8 = 27;

pub const BAD_EDITION: u8 = 28;

// Why an event changes nothing, or a link is not made as it was asked for.
#[derive(Clone, Copy, Debug, PartialEq, Eq)]
pub enum Refusal {
    NotOpen,
    PayloadTooLong,
    QueueFull,
    BadPacket,
    NoEntry,
    ReplyTooSmall,
    BadLink,
    BadEdition,
}

// The number that an event answers; C programs have it.
impl From<Refusal> for u8 {
    ghost from_gives = { λ refusal n. n ≡ number_of refusal };

    fn from(refusal: Refusal) -> u8 {
        match refusal {
            Refusal::NotOpen => NOT_OPEN,
            Refusal::PayloadTooLong => PAYLOAD_TOO_LONG,
            Refusal::QueueFull => QUEUE_FULL,
            Refusal::BadPacket => BAD_PACKET,
            Refusal::NoEntry => NO_ENTRY,
            Refusal::ReplyTooSmall => REPLY_TOO_SMALL,
            Refusal::BadLink => BAD_LINK,
            Refusal::BadEdition => BAD_EDITION,
        }
    }
}
