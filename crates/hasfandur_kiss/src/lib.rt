// KISS as C programs call it, as the crate hasfandur has the rest: include/hasfandur.h declares each function here and says its
// contract in words. A crate of its own, so that the loops that all framings share are compiled for KISS by itself (docs/SPEED.md).
#![tactic(auto)]

ghost use Rattle.std.specs.Prelude.{◌≡◌};
ghost use Rattle.kiss_write.specs.Write.{write_frame};
ghost use Rattle.kiss_read.specs.State.{fresh};
ghost use Rattle.kiss_read.specs.Read.{read};
ghost use Rattle.kiss_plain.specs.Plain.{reader_of, plain_of, answer_of};

#[unsafe(no_mangle)]
pub extern "C" fn hasfandur_kiss_write(
    at_flag: bool,
    payload: &[u8],
    out: &mut [u8],
) -> qaft_write::Written
    ensures value { result ≡ (write_frame at_flag payload.now out.old).answer }
    ensures out_after { out.new ≡ (write_frame at_flag payload.now out.old).buffer }
{
    kiss_write::write_plain(at_flag, payload, out)
}

#[unsafe(no_mangle)]
pub extern "C" fn hasfandur_kiss_fresh() -> kiss_plain::PlainReader
    ensures { result ≡ plain_of fresh }
{
    kiss_plain::PlainReader::fresh()
}

#[unsafe(no_mangle)]
pub extern "C" fn hasfandur_kiss_read(
    reader: kiss_plain::PlainReader,
    chunk: &[u8],
    buffer: &mut [u8],
) -> kiss_plain::PlainAnswer
    ensures value { result ≡ answer_of reader (read (reader_of reader) chunk.now buffer.old).answer }
    ensures buffer_after { buffer.new ≡ (read (reader_of reader) chunk.now buffer.old).buffer }
{
    reader.read(chunk, buffer)
}
