// Converts a captured line from standard input to a line of the other framing on standard output. What is written is proved in
// `converter` and `conversion_laws`; here octets are moved. Memory is constant: one chunk, one segment and some frames at a time.
// Each chunk's frames are written before the next is read, so that a live line goes on at once.
#![tactic(auto)]

ghost use Rattle.std.specs.Prelude.{◌≡◌, cond, ltb};
ghost use Rattle.qaft.specs.Limits.{max_level};
ghost use Rattle.qaft.specs.Answers.{bad_level, done};

use converter::{Converter, Tally};
use std::io::{Cursor, Read, Write};

// So many octets are read, and put together for a write, at a time.
const CHUNK: usize = 65_536;

// The line of counts has room here: three numbers of 20 digits, and 24 octets beside them.
const COUNTS: usize = 84;

// Converts standard input to its end. A level that is none is refused before anything is read or written.
pub fn convert(rt: &HostRuntime, to_kiss: bool, level: u8) -> u8
    ensures { result ≡ cond (ltb max_level level) bad_level done }
{
    if qaft::MAX_LEVEL < level {
        return qaft::BAD_LEVEL;
    }
    if let Some(tally) = convert_chunks(rt, Converter::new(to_kiss, level)) {
        say_counts(rt, tally);
    }
    qaft::DONE
}

// Chunk after chunk, until there is no more; then the counts. A read that fails ends the capture too, with a line of its own before
// them. A write that fails ends all, without counts: nobody knows how many of these frames were written.
fn convert_chunks(rt: &HostRuntime, fresh: Converter) -> Option<Tally> {
    let mut input = [0u8; CHUNK];
    let mut buffer = [0u8; qaft::MAX_SEGMENT];
    let mut out = [0u8; CHUNK];
    let mut converter = fresh;
    for _ in 0..u64::MAX {
        match rt.stdin().read(&mut input) {
            Ok(0) => return Some(converter.tally),
            Ok(n) => {
                converter = convert_chunk(rt, converter, &input[..n], &mut buffer, &mut out)?;
            }
            Err(_) => {
                say(rt, converter.to_kiss, b": standard input can't be read\n");
                return Some(converter.tally);
            }
        }
    }
    None
}

// The frames of one chunk: where they fill the out buffer they are written, and the rest of the chunk goes into the next call. None
// where they can't be written, which is said.
fn convert_chunk(
    rt: &HostRuntime,
    before: Converter,
    chunk: &[u8],
    buffer: &mut [u8],
    out: &mut [u8],
) -> Option<Converter> {
    let mut converter = before;
    let mut i = 0;
    while i < chunk.len() {
        // a refusal, which the level was looked at for and these buffers are too long for
        let Ok(converted) = converter.convert(&chunk[i..], buffer, out) else {
            break;
        };
        converter = converted.converter;
        i += converted.taken;
        if !write(&mut rt.stdout(), out, converted.length) {
            say(
                rt,
                converter.to_kiss,
                b": standard output can't be written\n",
            );
            return None;
        }
        // a call that took nothing would be made again for ever
        if converted.taken == 0 {
            break;
        }
    }
    Some(converter)
}

// The first n octets; whether they were written.
fn write<W: Write>(to: &mut W, octets: &[u8], n: usize) -> bool {
    if n <= octets.len() {
        return write_all(to, &octets[..n]);
    }
    false
}

// Whether all of it was written.
fn write_all<W: Write>(to: &mut W, octets: &[u8]) -> bool {
    to.write_all(octets).is_ok()
}

// A line on standard error, with the program's name before it.
fn say(rt: &HostRuntime, to_kiss: bool, line: &[u8]) {
    let mut stderr = rt.stderr();
    if to_kiss {
        write_all(&mut stderr, b"qaft_to_kiss");
    } else {
        write_all(&mut stderr, b"kiss_to_qaft");
    }
    write_all(&mut stderr, line);
}

// The counts on standard error, in one write: frames written, frames of another port or command, other reports.
fn say_counts(rt: &HostRuntime, tally: Tally) {
    let frames = tally.frames;
    let skipped = tally.skipped;
    let others = tally.others;
    let mut line = Cursor::new([0u8; COUNTS]);
    if writeln!(line, "frames {frames} skipped {skipped} other {others}").is_ok() {
        let n = line.position();
        write(&mut rt.stderr(), line.get_ref(), n as usize);
    }
}
