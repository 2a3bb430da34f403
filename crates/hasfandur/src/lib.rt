// What C programs call: include/hasfandur.h declares each function here and says its contract in words.
// A slice crosses as a pointer and a length. Each function only calls the library's, and promises the same.
#![tactic(auto)]

ghost use Rattle.std.specs.Prelude.{◌≡◌};
ghost use Rattle.qaft.specs.Check.{check_octet};
ghost use Rattle.qaft_write.specs.Write.{write_frame};
ghost use Rattle.qaft_read.specs.State.{fresh};
ghost use Rattle.qaft_read.specs.Read.{read};
ghost use Rattle.qaft_plain.specs.Plain.{reader_of, plain_of, answer_of};
ghost use Rattle.sums.specs.Sum.{sum_from, next_station_sum, header_sum};
ghost use Rattle.fcs.specs.Fcs.{check_sequence};
ghost use Rattle.afp_read.specs.Read.{read_of};
ghost use Rattle.afp_receiver.specs.Receiver.{receiver_of};
ghost use Rattle.afp_receiver.specs.Plain.{plain_receiver_of};
ghost use Rattle.afp_write.specs.Write.{write_of, buffer_of};

#[unsafe(no_mangle)]
pub extern "C" fn hasfandur_qaft_check(octets: &[u8]) -> u8
    ensures { result ≡ check_octet octets.now }
{
    qaft::check_octet(octets)
}

#[unsafe(no_mangle)]
pub extern "C" fn hasfandur_qaft_write(
    level: u8,
    check_kind: u8,
    at_flag: bool,
    data: &[u8],
    out: &mut [u8],
) -> qaft_write::Written
    ensures value { result ≡ (write_frame level check_kind at_flag «data».now out.old).answer }
    ensures out_after { out.new ≡ (write_frame level check_kind at_flag «data».now out.old).buffer }
{
    qaft_write::write_plain(level, check_kind, at_flag, data, out)
}

// The reader crosses in plain numbers: any number may come.
#[unsafe(no_mangle)]
pub extern "C" fn hasfandur_qaft_fresh(level: u8, check_kind: u8) -> qaft_plain::PlainReader
    ensures { result ≡ plain_of (fresh level check_kind) }
{
    qaft_plain::PlainReader::fresh(level, check_kind)
}

#[unsafe(no_mangle)]
pub extern "C" fn hasfandur_qaft_read(
    reader: qaft_plain::PlainReader,
    chunk: &[u8],
    buffer: &mut [u8],
) -> qaft_plain::PlainAnswer
    ensures value { result ≡ answer_of reader (read (reader_of reader) chunk.now buffer.old).answer }
    ensures buffer_after { buffer.new ≡ (read (reader_of reader) chunk.now buffer.old).buffer }
{
    reader.read(chunk, buffer)
}

#[unsafe(no_mangle)]
pub extern "C" fn hasfandur_afp_sum(octets: &[u8]) -> u8
    ensures { result ≡ sum_from 0 octets.now }
{
    sums::afp_sum(octets)
}

#[unsafe(no_mangle)]
pub extern "C" fn hasfandur_afp_next_station_sum(field: &[u8]) -> u8
    ensures { result ≡ next_station_sum field.now }
{
    sums::next_station_sum(field)
}

#[unsafe(no_mangle)]
pub extern "C" fn hasfandur_afp_header_sum(octets: &[u8]) -> u8
    ensures { result ≡ header_sum octets.now }
{
    sums::header_sum(octets)
}

#[unsafe(no_mangle)]
pub extern "C" fn hasfandur_check_sequence(octets: &[u8]) -> u16
    ensures { result ≡ check_sequence octets.now }
{
    fcs::check_sequence(octets)
}

#[unsafe(no_mangle)]
pub extern "C" fn hasfandur_afp_read(frame: &[u8]) -> afp_read::Reading
    ensures { result ≡ read_of frame.now }
{
    afp_read::read(frame)
}

#[unsafe(no_mangle)]
pub extern "C" fn hasfandur_afp_next_receiver(frame: &[u8]) -> afp_receiver::PlainReceiver
    ensures { result ≡ plain_receiver_of (receiver_of frame.now) }
{
    afp_receiver::plain_receiver(frame)
}

#[unsafe(no_mangle)]
pub extern "C" fn hasfandur_afp_write(
    protocol: u8,
    stations: &[u8],
    next: usize,
    supplementary: &[u8],
    payload: &[u8],
    out: &mut [u8],
) -> afp_write::Written
    ensures value { result ≡ write_of protocol stations.now next supplementary.now payload.now out.old }
    ensures out_after { out.new ≡ buffer_of protocol stations.now next supplementary.now payload.now out.old }
{
    afp_write::write(protocol, stations, next, supplementary, payload, out)
}
