// QAFT: the frame writer. What it answers and writes: specs/Write; a frame on the line: the crate qaft, specs/Frame.
#![tactic(auto)]

ghost use Rattle.std.specs.Prelude.{◌≡◌, MatchResult};
ghost use Rattle.qaft.specs.Answers.{done};
ghost use Rattle.qaft.specs.Refusal.{refusal_number};
ghost use Rattle.qaft_write.specs.Answer.{written_of};
ghost use Rattle.qaft_write.specs.Write.{write_frame};

use framer::Frame;
use qaft::Refusal;

// A writer's answer in numbers, for C: a number of document 01, and how many octets of the out buffer were written.
#[repr(C)]
#[derive(Clone, Copy)]
pub struct Written {
    pub number: u8,
    pub length: usize,
}

impl<E: Into<u8>> From<Result<usize, E>> for Written {
    ghost from_gives = { λ answer w. MatchResult answer (λ n. w ≡ record { number = done; length = n }) (λ e. E.converts e w.number × (w.length ≡ 0)) };

    fn from(answer: Result<usize, E>) -> Written {
        match answer {
            Ok(length) => Written {
                number: qaft::DONE,
                length,
            },
            Err(refusal) => Written {
                number: refusal.into(),
                length: 0,
            },
        }
    }
}

// Writes one frame with the check of a kind to the front of `out`; how many octets it has. `at_flag`: the line stands at a flag
// already, so that the frame needs none to open it.
#[tactic(auto, unfolding(crate::specs::Write::write_frame, crate::specs::Write::refusals, crate::specs::Answer::refusal))]
pub fn write_frame(
    level: u8,
    check_kind: u8,
    at_flag: bool,
    data: &[u8],
    out: &mut [u8],
) -> Result<usize, Refusal>
    ensures value { written_of refusal_number result ≡ (write_frame level check_kind at_flag «data».now out.old).answer }
    ensures out_after { out.new ≡ (write_frame level check_kind at_flag «data».now out.old).buffer }
{
    if qaft::MAX_LEVEL < level {
        return Err(Refusal::BadLevel);
    }
    if qaft::MAX_KIND < check_kind {
        return Err(Refusal::BadKind);
    }
    if data.len() == 0 {
        return Err(Refusal::NoData);
    }
    if qaft::MAX_DATA < data.len() {
        return Err(Refusal::DataTooLong);
    }
    let e = qaft::escapes(level);
    let check = qaft::check_octets(check_kind, data);
    let size = qaft::check_size(check_kind);
    let frame = Frame {
        at_flag,
        head: &data[..0],
        octets: data,
        tail: &check[..size],
    };
    let Some(written) = framer::write(e, frame, out) else {
        return Err(Refusal::OutTooSmall);
    };
    Ok(written)
}

// The same, answered in numbers, for C.
#[tactic(auto, using(crate::proofs::Numbers::written_is))]
pub fn write_plain(level: u8, check_kind: u8, at_flag: bool, data: &[u8], out: &mut [u8]) -> Written
    ensures value { result ≡ (write_frame level check_kind at_flag «data».now out.old).answer }
    ensures out_after { out.new ≡ (write_frame level check_kind at_flag «data».now out.old).buffer }
{
    write_frame(level, check_kind, at_flag, data, out).into()
}
