// What is said on standard error, a line at a time.
ghost use Rattle.std.specs.Prelude.{◌≡◌, ◌≤◌, length, take};

use sheet::Refusal;
use std::fmt::Write as TextWrite;
use std::io::Write;
use std::{fmt, io};

// Two arguments, and the words beside them.
const ROOM: usize = 2 * 4096 + 128;

// The text of an error, with its number behind it, has room here.
const ERROR: usize = 512;

// Text put into a lent buffer, piece by piece: its first octets, so many. What has no room is left out.
#[derive(Drop)]
struct Text<'a> {
    out: &'a mut [u8],
    length: usize,
}

impl Text<'_> {
    fn put(&mut self, octets: &[u8]) {
        self.length = octets::put(octets, self.out, self.length);
    }

    fn octets(&self) -> &[u8] {
        front(self.out, self.length)
    }
}

impl fmt::Write for Text<'_> {
    fn write_str(&mut self, s: &str) -> fmt::Result {
        self.put(s.as_bytes());
        Ok(())
    }
}

// A line on what was named, which is a file most often. `more` stands behind the words.
pub(crate) fn line(rt: &HostRuntime, name: &[u8], words: &[u8], more: &[u8]) {
    let mut out = [0u8; ROOM];
    let mut text = Text {
        out: &mut out,
        length: 0,
    };
    text.put(b"line_sheet: ");
    text.put(name);
    text.put(b": ");
    text.put(words);
    text.put(more);
    text.put(b"\n");
    say(rt, text.octets());
}

// The system's text of an error, on a file.
pub(crate) fn fail(rt: &HostRuntime, name: &[u8], error: &io::Error) {
    let mut out = [0u8; ERROR];
    let mut text = Text {
        out: &mut out,
        length: 0,
    };
    // a text that is too long for the buffer is cut off
    if write!(text, "{error}").is_err() {
        text.length = 0;
    }
    let said = text.octets();
    line(rt, name, b"", &said[..text_end(said)]);
}

// Where the number of an error, which std puts behind the system's text and which is left out, begins in it, or else the text's end.
fn text_end(text: &[u8]) -> usize
    ensures { result ≤ length text.now }
{
    for i in 0..text.len() {
        if text[i..].starts_with(b" (os error ") {
            return i;
        }
    }
    text.len()
}

// Why a capture was not counted. `typed` is the line's number, as it was typed.
pub(crate) fn refusal(rt: &HostRuntime, name: &[u8], refusal: Refusal, typed: &[u8]) {
    match refusal {
        Refusal::NoLine => line(rt, name, b"refused by 50: line number over 63: ", typed),
        Refusal::CountTooLarge => line(rt, name, b"refused by 51: count too large", b""),
        // of a capture that is added something was counted
        Refusal::Uncounted(_) => {}
    }
}

// A level that is none, and how the program is called.
pub(crate) fn bad_level(rt: &HostRuntime) {
    say(
        rt,
        b"line_sheet: refused by 6: argument 1, the level, is 0 or 1\nusage: line_sheet LEVEL [LINE FILE]...\n",
    );
}

pub(crate) fn unwritten(rt: &HostRuntime) {
    say(rt, b"line_sheet: standard output can't be written\n");
}

// An argument that is longer than any file's name, by its index.
pub(crate) fn too_long(rt: &HostRuntime, at: usize) {
    let mut out = [0u8; ROOM];
    let mut text = Text {
        out: &mut out,
        length: 0,
    };
    let written = writeln!(text, "line_sheet: argument {at}: longer than 4096 octets");
    if written.is_ok() {
        say(rt, text.octets());
    }
}

// Octets on standard error. What can't be written is lost.
fn say(rt: &HostRuntime, octets: &[u8]) {
    let mut stderr = rt.stderr();
    let _written = stderr.write_all(octets).is_ok();
}

// The first n octets, or all where there are fewer.
pub(crate) fn front(octets: &[u8], n: usize) -> &[u8]
    ensures { result.now ≡ take n octets.now }
{
    if n <= octets.len() {
        return &octets[..n];
    }
    octets
}
