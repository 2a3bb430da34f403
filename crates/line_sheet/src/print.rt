// The sheet on standard output (specs/Sheet).
ghost use Rattle.std.specs.Prelude.{◌≤◌, length};
ghost use Rattle.line_sheet.specs.Sheet.{lines_text, sheet_room};
ghost use Rattle.text.specs.Placed.{Placed};

use crate::{Table, say};
use sheet::Tally;
use std::io::Write;

// The sheet has room here.
const SHEET: usize = 65_536;

// A line for each record, from 0, in one write.
pub(crate) fn print(rt: &HostRuntime, table: Table) {
    let mut out = [0u8; SHEET];
    let n = put_lines(table.records, &mut out);
    let mut stdout = rt.stdout();
    if stdout.write_all(say::front(&out, n)).is_err() {
        say::unwritten(rt);
    }
}

// The text of the whole sheet at the front of a buffer that has room for it; the index behind it.
fn put_lines(records: [Tally; sheet::LINES], out: &mut [u8]) -> usize
    requires { sheet_room ≤ length out.old }
    ensures { Placed out.old 0 (lines_text 0 records) out.new result }
{
    let mut at = 0;
    for (line, &record) in records.iter().enumerate() {
        at = sheet_line::put_line(line, record, out, at);
    }
    at
}
