// The line sheet as C programs call it, as the crate hasfandur has the rest: include/hasfandur.h declares each function here and says
// its contract in words.
#![tactic(auto)]

ghost use Rattle.std.specs.Prelude.{◌≡◌, length};
ghost use Rattle.sheet_count.specs.Count.{count_call};
ghost use Rattle.sheet_line.specs.Line.{line_text, line_room};
ghost use Rattle.sheet_table.specs.Table.{tally_call};
ghost use Rattle.text.specs.Room.{text_into, text_end};

use sheet::{Counts, Tally};

#[unsafe(no_mangle)]
pub extern "C" fn hasfandur_sheet_count(level: u8, capture: &[u8]) -> Counts
    ensures { result ≡ count_call level capture.now }
{
    sheet_count::count(level, capture)
}

#[unsafe(no_mangle)]
pub extern "C" fn hasfandur_sheet_tally(
    level: u8,
    capture: &[u8],
    line: usize,
    table: &mut [Tally],
) -> u8
    ensures { (result ≡ (tally_call table.old line (count_call level capture.now)).number)
        × (table.new ≡ (tally_call table.old line (count_call level capture.now)).table) }
{
    let counts = sheet_count::count(level, capture);
    sheet_table::tally_plain(table, line, counts)
}

#[unsafe(no_mangle)]
pub extern "C" fn hasfandur_sheet_line(line: usize, tally: Tally, out: &mut [u8]) -> usize
    ensures value { result ≡ text_end line_room (line_text line tally.counts) (length out.old) 0 }
    ensures out_after { out.new ≡ text_into line_room (line_text line tally.counts) out.old 0 }
{
    sheet_line::put_line(line, tally, out, 0)
}
