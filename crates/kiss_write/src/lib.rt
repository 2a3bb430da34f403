// KISS: the frame writer. What it answers and writes: specs/Write; a frame on the line: the crate kiss, specs/Frame.
#![tactic(auto)]

ghost use Rattle.std.specs.Prelude.{◌≡◌};
ghost use Rattle.kiss.specs.Refusal.{refusal_number};
ghost use Rattle.qaft_write.specs.Answer.{written_of};
ghost use Rattle.kiss_write.specs.Write.{write_frame};

use framer::Frame;
use kiss::Refusal;
use qaft_write::Written;

// Writes one data frame of port 0 to the front of `out`; how many octets it has. `at_flag`: the line stands at a flag already, so
// that the frame needs none to open it.
#[tactic(auto, unfolding(crate::specs::Write::write_frame, crate::specs::Write::refusals, qaft_write::specs::Answer::refusal))]
pub fn write_frame(at_flag: bool, payload: &[u8], out: &mut [u8]) -> Result<usize, Refusal>
    ensures value { written_of refusal_number result ≡ (write_frame at_flag payload.now out.old).answer }
    ensures out_after { out.new ≡ (write_frame at_flag payload.now out.old).buffer }
{
    if payload.len() == 0 {
        return Err(Refusal::NoData);
    }
    if qaft::MAX_DATA < payload.len() {
        return Err(Refusal::DataTooLong);
    }
    let e = kiss::escapes();
    let kind = [kiss::DATA_TYPE];
    let frame = Frame {
        at_flag,
        head: &kind,
        octets: payload,
        tail: &payload[..0],
    };
    let Some(length) = framer::write(e, frame, out) else {
        return Err(Refusal::OutTooSmall);
    };
    Ok(length)
}

// The same, answered in numbers, for C.
#[tactic(auto, using(qaft_write::proofs::Numbers::written_is))]
pub fn write_plain(at_flag: bool, payload: &[u8], out: &mut [u8]) -> Written
    ensures value { result ≡ (write_frame at_flag payload.now out.old).answer }
    ensures out_after { out.new ≡ (write_frame at_flag payload.now out.old).buffer }
{
    write_frame(at_flag, payload, out).into()
}
