// The monthly line sheet over captures in files: line_sheet LEVEL [LINE FILE]... What is counted and printed is proved in sheet_counter,
// sheet_table and sheet_line; here arguments are looked at and octets are moved. Memory is constant: one chunk, one segment, the table, and
// the two arguments of a pair.
#![tactic(auto)]

ghost use Rattle.std.specs.Prelude.{◌≡◌, ◌+◌, ◌<◌, ◌^◌};
ghost use Rattle.line_sheet.specs.Levels.{level_of};
ghost use Rattle.line_sheet.specs.Sheet.{OthersKept};
ghost use Rattle.numerals.specs.Number.{typed_of};

use sheet::Tally;
use std::env::{Env, FillError};

mod print;
mod reading;
mod say;

// The index of the level among the arguments, and of the first pair.
const LEVEL: usize = 1;

const PAIRS: usize = 2;

// An argument has at most so many octets, as any file's name has.
const ARGUMENT: usize = 4096;

// The records of all lines; a struct, since the check covers no local array that calls give anew.
#[derive(Drop)]
pub struct Table {
    pub records: [Tally; sheet::LINES],
}

fn main(rt: HostRuntime) {
    let Some(level) = typed_level(&rt) else {
        say::bad_level(&rt);
        return;
    };
    print::print(&rt, with_pairs(&rt, level, arg_count(&rt)));
}

// How many arguments there are, the program's name among them.
fn arg_count(rt: &HostRuntime) -> usize {
    let mut word = [0u8; ARGUMENT];
    for at in 0..usize::MAX {
        if let Err(FillError::NotPresent) = rt.arg(at, &mut word) {
            return at;
        }
    }
    usize::MAX
}

// The level that the first argument is. One that is missing or longer than the buffer is none.
fn typed_level(rt: &HostRuntime) -> Option<u8> {
    let mut word = [0u8; ARGUMENT];
    match rt.arg(LEVEL, &mut word) {
        Ok(n) => level_of(numerals::parse(&word[..n])),
        Err(_) => None,
    }
}

fn level_of(typed: Option<usize>) -> Option<u8>
    ensures { result ≡ level_of typed }
{
    let Some(n) = typed else {
        return None;
    };
    if usize::from(qaft::MAX_LEVEL) < n {
        return None;
    }
    Some(n as u8)
}

// The table after every pair, where there are so many arguments; what is left over behind the pairs is said.
fn with_pairs(rt: &HostRuntime, level: u8, count: usize) -> Table {
    let records = [Tally::new(); sheet::LINES];
    let mut table = Table { records };
    if count < PAIRS {
        return table;
    }
    let pairs = (count - PAIRS) / 2;
    // who waits for several files sees which one is being read
    let shown = 1 < pairs;
    for i in 0..pairs {
        table = with_pair(rt, level, shown, PAIRS + 2 * i, table);
    }
    if (count - PAIRS) % 2 == 1 {
        say_odd(rt, count - 1);
    }
    table
}

// A line number at the end, without a file.
fn say_odd(rt: &HostRuntime, at: usize) {
    let mut word = [0u8; ARGUMENT];
    match rt.arg(at, &mut word) {
        Ok(n) => say::line(rt, &word[..n], b"a line without a file", b""),
        Err(_) => say::too_long(rt, at),
    }
}

// The table after the pair of arguments that begins at this index, a line number and the name of a file.
fn with_pair(rt: &HostRuntime, level: u8, shown: bool, at: usize, table: Table) -> Table
    requires { at + 1 < 2 ^ 64 }
{
    let mut name = [0u8; ARGUMENT];
    let Ok(n) = rt.arg(at + 1, &mut name) else {
        say::too_long(rt, at + 1);
        return table;
    };
    let mut word = [0u8; ARGUMENT];
    let Ok(m) = rt.arg(at, &mut word) else {
        say::line(
            rt,
            &name[..n],
            b"no line number: ",
            b"longer than 4096 octets",
        );
        return table;
    };
    with_file(rt, level, shown, &word[..m], &name[..n], table)
}

// The table after a file on the line that was typed.
fn with_file(
    rt: &HostRuntime,
    level: u8,
    shown: bool,
    word: &[u8],
    name: &[u8],
    table: Table,
) -> Table
    ensures { OthersKept (typed_of word.now) table.records result.records }
{
    let typed = numerals::parse(word);
    let Some(line) = typed else {
        say::line(rt, name, b"no line number: ", word);
        return table;
    };
    if shown {
        say::line(rt, name, b"reading", b"");
    }
    let Some(counter) = reading::read(rt, level, name) else {
        return table;
    };
    match sheet_table::tallied(table.records, line, counter.counts()) {
        Ok(records) => Table { records },
        Err(refusal) => {
            say::refusal(rt, name, refusal, word);
            table
        }
    }
}
