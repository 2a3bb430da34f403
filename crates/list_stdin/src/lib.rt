// Lists a captured line, of KISS or of QAFT at a level, from standard input to standard output. What is listed is proved in `lister`; here octets are moved.
// Memory is constant: one chunk, one segment and some lines at a time. Each chunk's lines are written before the next is read,
// so that a live line shows at once.
#![tactic(auto)]

ghost use Rattle.std.specs.Prelude.{◌≡◌, cond, ltb};
ghost use Rattle.qaft.specs.Limits.{max_level};
ghost use Rattle.qaft.specs.Answers.{bad_level, done};

use lister::Lister;
use std::io::{Read, Write};

// So many octets are read, and put together for a write, at a time.
const CHUNK: usize = 65_536;

// Lists standard input to its end. A level that is none is refused before anything is read or written.
pub fn list(rt: &HostRuntime, kiss: bool, level: u8) -> u8
    ensures { result ≡ cond (ltb max_level level) bad_level done }
{
    if qaft::MAX_LEVEL < level {
        return qaft::BAD_LEVEL;
    }
    let mut out = [0u8; CHUNK];
    let heading = listing_ends::put_heading(kiss, level, &mut out, 0);
    write(rt, &out, heading);
    let lister = list_chunks(rt, Lister::new(kiss, level), &mut out);
    let end = lister.put_end(&mut out);
    write(rt, &out, end);
    qaft::DONE
}

// Chunk after chunk, until there is no more. A read that fails ends the listing with a line on standard error.
fn list_chunks(rt: &HostRuntime, fresh: Lister, out: &mut [u8]) -> Lister {
    let mut input = [0u8; CHUNK];
    let mut buffer = [0u8; qaft::MAX_SEGMENT];
    let mut lister = fresh;
    for _ in 0..u64::MAX {
        match rt.stdin().read(&mut input) {
            Ok(0) => break,
            Ok(n) => lister = list_chunk(rt, lister, &input[..n], &mut buffer, out),
            Err(_) => {
                write_all(&mut rt.stderr(), b"listing: standard input can't be read\n");
                break;
            }
        }
    }
    lister
}

// The lines of one chunk: where they fill the out buffer they are written, and the rest of the chunk goes into the next call.
fn list_chunk(
    rt: &HostRuntime,
    before: Lister,
    chunk: &[u8],
    buffer: &mut [u8],
    out: &mut [u8],
) -> Lister {
    let mut lister = before;
    let mut i = 0;
    while i < chunk.len() {
        // a refusal, which the level was looked at for and these buffers are too long for
        let Ok(listed) = lister.list(&chunk[i..], buffer, out) else {
            break;
        };
        lister = listed.lister;
        i += listed.taken;
        write(rt, out, listed.length);
        // a call that took nothing would be made again for ever
        if listed.taken == 0 {
            break;
        }
    }
    lister
}

// The first n octets, to standard output. What can't be written is lost.
fn write(rt: &HostRuntime, out: &[u8], n: usize) {
    if n <= out.len() {
        write_all(&mut rt.stdout(), &out[..n]);
    }
}

// Whether all of it was written.
fn write_all<W: Write>(to: &mut W, octets: &[u8]) -> bool {
    to.write_all(octets).is_ok()
}
