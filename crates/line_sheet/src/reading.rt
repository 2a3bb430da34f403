// A capture in a file, counted chunk after chunk.
use crate::say;
use sheet_counter::Counter;
use std::fs::File;
use std::io::Read;

// So many octets are read at a time.
const CHUNK: usize = 65_536;

// Counts the file of this name: all of it, or nothing of it where that failed, and why was said.
pub(crate) fn read(rt: &HostRuntime, level: u8, name: &[u8]) -> Option<Counter> {
    let Ok(path) = str::from_utf8(name) else {
        say::line(rt, name, b"a name that is no UTF-8 text", b"");
        return None;
    };
    match File::open(rt, path) {
        Ok(mut file) => read_chunks(rt, &mut file, name, Counter::new(level)),
        Err(error) => {
            say::fail(rt, name, &error);
            None
        }
    }
}

// Chunk after chunk, until there is no more; where a read fails, nothing of the file is counted. A file of so many chunks that the turns
// run out has counts that no line has room for.
fn read_chunks(rt: &HostRuntime, file: &mut File, name: &[u8], fresh: Counter) -> Option<Counter> {
    let mut input = [0u8; CHUNK];
    let mut buffer = [0u8; qaft::MAX_SEGMENT];
    let mut counter = fresh;
    for _ in 0..u64::MAX {
        match file.read(&mut input) {
            Ok(0) => break,
            Ok(n) => counter = count_chunk(rt, name, counter, &input[..n], &mut buffer)?,
            Err(error) => {
                say::fail(rt, name, &error);
                return None;
            }
        }
    }
    Some(counter)
}

// One chunk, counted.
fn count_chunk(
    rt: &HostRuntime,
    name: &[u8],
    counter: Counter,
    chunk: &[u8],
    buffer: &mut [u8],
) -> Option<Counter> {
    // a refusal, which the level was looked at for and the buffer is too long for
    let Ok(later) = counter.count(chunk, buffer) else {
        say::line(rt, name, b"refused", b"");
        return None;
    };
    Some(later)
}
