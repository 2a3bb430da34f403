// The DLC link as C programs call it: include/hasfandur.h declares each function here and says its contract in words.
// The link crosses in plain numbers: any number may come. Each event takes a link and gives it back with an answer.
#![tactic(auto)]

ghost use Rattle.dlc.specs.Calls.{MakeCall, StartCall, TimerCall, PayloadCall, ArrivalCall};
ghost use Rattle.dlc_plain.specs.Plain.{view};

#[unsafe(no_mangle)]
pub extern "C" fn hasfandur_dlc_fresh(edition: u8) -> dlc_plain::PlainOutcome
    ensures { MakeCall view edition result.link result.answer }
{
    dlc_plain::PlainLink::make(edition)
}

#[unsafe(no_mangle)]
pub extern "C" fn hasfandur_dlc_start(
    link: dlc_plain::PlainLink,
    reply: &mut [u8],
) -> dlc_plain::PlainOutcome
    ensures { StartCall view link reply.old reply.new result.link result.answer }
{
    link.start(reply)
}

#[unsafe(no_mangle)]
pub extern "C" fn hasfandur_dlc_timer(
    link: dlc_plain::PlainLink,
    reply: &mut [u8],
) -> dlc_plain::PlainOutcome
    ensures { TimerCall view link reply.old reply.new result.link result.answer }
{
    link.timer(reply)
}

#[unsafe(no_mangle)]
pub extern "C" fn hasfandur_dlc_payload(
    link: dlc_plain::PlainLink,
    payload: &[u8],
    reply: &mut [u8],
) -> dlc_plain::PlainOutcome
    ensures { PayloadCall view link payload.now reply.old reply.new result.link result.answer }
{
    link.payload(payload, reply)
}

#[unsafe(no_mangle)]
pub extern "C" fn hasfandur_dlc_arrival(
    link: dlc_plain::PlainLink,
    packet: &[u8],
    reply: &mut [u8],
) -> dlc_plain::PlainOutcome
    ensures { ArrivalCall view link packet.now reply.old reply.new result.link result.answer }
{
    link.arrival(packet, reply)
}
