// A capture that is held whole, as a line of the other framing (specs/Whole). Nothing is written before it is known that all of it has
// room: the capture is converted twice, first to measure the line. The reader's buffer is inside.
#![tactic(auto)]

ghost use Rattle.std.specs.Prelude.{◌≡◌, true, false, ◌+◌, ◌≤◌, leb, length, take};
ghost use Rattle.std.proofs.lemmas.List.Edits.{sets};
ghost use Rattle.qaft.specs.Limits.{max_level};
ghost use Rattle.converter.specs.Convert.{too_small as too_small_of};
ghost use Rattle.conversion_laws.specs.Frames.{conversion_of};
ghost use Rattle.conversion.specs.Whole.{converted, convert_whole};

use converter::Converter;

// A call's octets; there is room for every frame.
const SCRATCH: usize = 8192;

// The answer: a refusal's number or 0; the octets written; frames, frames of another port or command (63), other reports.
#[repr(C)]
#[derive(Clone, Copy)]
pub struct Conversion {
    pub number: u8,
    pub length: usize,
    pub frames: u64,
    pub skipped: u64,
    pub others: u64,
}

// A QAFT capture as a KISS line at the front of `out`. Refusals: 6, then 64 where `out` is shorter than the line.
pub fn qaft_to_kiss(level: u8, capture: &[u8], out: &mut [u8]) -> Conversion
    ensures value { result ≡ (convert_whole true level capture.now out.old).answer }
    ensures out_after { out.new ≡ (convert_whole true level capture.now out.old).buffer }
{
    whole(true, level, kiss::OUT_TOO_SMALL, capture, out)
}

// A KISS capture as a QAFT line at the front of `out`. Refusals: 6, then 3.
pub fn kiss_to_qaft(level: u8, capture: &[u8], out: &mut [u8]) -> Conversion
    ensures value { result ≡ (convert_whole false level capture.now out.old).answer }
    ensures out_after { out.new ≡ (convert_whole false level capture.now out.old).buffer }
{
    whole(false, level, qaft::OUT_TOO_SMALL, capture, out)
}

fn whole(to_kiss: bool, level: u8, too_small: u8, capture: &[u8], out: &mut [u8]) -> Conversion
    requires { too_small ≡ too_small_of to_kiss }
    ensures value { result ≡ (convert_whole to_kiss level capture.now out.old).answer }
    ensures out_after { out.new ≡ (convert_whole to_kiss level capture.now out.old).buffer }
{
    if qaft::MAX_LEVEL < level {
        return refused(qaft::BAD_LEVEL);
    }
    if fits(to_kiss, level, capture, out.len()) {
        return put(to_kiss, level, capture, out);
    }
    refused(too_small)
}

fn refused(number: u8) -> Conversion
    ensures { result ≡ record { number = number; length = 0; frames = 0; skipped = 0; others = 0 } }
{
    Conversion {
        number,
        length: 0,
        frames: 0,
        skipped: 0,
        others: 0,
    }
}

// Whether the line has room in so many octets.
fn fits(to_kiss: bool, level: u8, capture: &[u8], room: usize) -> bool
    requires { level ≤ max_level }
    ensures { result ≡ leb (length (conversion_of to_kiss level capture.now)) room }
{
    let mut buffer = [0u8; qaft::MAX_SEGMENT];
    let mut scratch = [0u8; SCRATCH];
    let mut c = Converter::new(to_kiss, level);
    let mut i = 0;
    let mut left = room;
    while i < capture.len() {
        // a refusal, which the level was looked at for and these buffers are too long for
        let a = match c.convert(&capture[i..], &mut buffer, &mut scratch) {
            Ok(a) => a,
            Err(_) => return false,
        };
        i += a.taken;
        if left < a.length {
            return false;
        }
        left -= a.length;
        c = a.converter;
    }
    true
}

// Puts the line at the front of `out`, which has room for it.
fn put(to_kiss: bool, level: u8, capture: &[u8], out: &mut [u8]) -> Conversion
    requires { (level ≤ max_level) × (length (conversion_of to_kiss level capture.now) ≤ length out.old) }
    ensures value { result ≡ (converted to_kiss level capture.now out.old).answer }
    ensures out_after { out.new ≡ (converted to_kiss level capture.now out.old).buffer }
{
    let mut buffer = [0u8; qaft::MAX_SEGMENT];
    let mut scratch = [0u8; SCRATCH];
    let mut c = Converter::new(to_kiss, level);
    let mut i = 0;
    let mut at = 0;
    while i < capture.len() {
        let a = match c.convert(&capture[i..], &mut buffer, &mut scratch) {
            Ok(a) => a,
            // as in `fits`, none comes
            Err(refusal) => return refused(refusal.number()),
        };
        i += a.taken;
        at = put_front(&scratch, a.length, out, at);
        c = a.converter;
    }
    let t = c.tally;
    Conversion {
        number: qaft::DONE,
        length: at,
        frames: t.frames,
        skipped: t.skipped,
        others: t.others,
    }
}

// Puts the first n octets of `octets` at index `at` of `out`, which has room for them; the index behind them.
fn put_front(octets: &[u8], n: usize, out: &mut [u8], at: usize) -> usize
    requires { (n ≤ length octets.now) × (at + n ≤ length out.old) }
    ensures value { result ≡ at + n }
    ensures out_after { out.new ≡ sets out.old at (take n octets.now) }
{
    octets::put(&octets[..n], out, at)
}
