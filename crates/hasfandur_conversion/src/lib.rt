// The conversions as C programs call them, as the crate hasfandur has the rest: include/hasfandur.h declares each function here and
// says its contract in words. A crate of its own, so that the loops that all framings share are compiled for both ways by itself
// (docs/SPEED.md).
#![tactic(auto)]

ghost use Rattle.std.specs.Prelude.{◌≡◌, true, false};
ghost use Rattle.conversion.specs.Whole.{convert_whole};

#[unsafe(no_mangle)]
pub extern "C" fn hasfandur_qaft_to_kiss(
    level: u8,
    capture: &[u8],
    out: &mut [u8],
) -> conversion::Conversion
    ensures value { result ≡ (convert_whole true level capture.now out.old).answer }
    ensures out_after { out.new ≡ (convert_whole true level capture.now out.old).buffer }
{
    conversion::qaft_to_kiss(level, capture, out)
}

#[unsafe(no_mangle)]
pub extern "C" fn hasfandur_kiss_to_qaft(
    level: u8,
    capture: &[u8],
    out: &mut [u8],
) -> conversion::Conversion
    ensures value { result ≡ (convert_whole false level capture.now out.old).answer }
    ensures out_after { out.new ≡ (convert_whole false level capture.now out.old).buffer }
{
    conversion::kiss_to_qaft(level, capture, out)
}
