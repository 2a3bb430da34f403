// The line sheet: the tallies of the lines in one lent table, a record a line (specs/Table). A capture changes the record of its own
// line, and no other.
#![tactic(auto)]

ghost use Rattle.std.specs.Prelude.{◌≡◌, ◌≢◌, IfErr};
ghost use Rattle.sheet.specs.Answers.{number_of, answer_number, IsFor};
ghost use Rattle.sheet_table.specs.Table.{tally_call, sheet_of, sheet_answer};

use sheet::{Counts, Refusal, Tally};

// The number of an answer that is no refusal.
const DONE: u8 = 0;

// Adds a capture's counts to the record of its line. Past the table there is no record to judge: the refusals that look at none are
// given here, in their order.
pub fn tally(table: &mut [Tally], line: usize, counts: Counts) -> Result<(), Refusal>
    ensures value { answer_number result ≡ (tally_call table.old line counts).number }
    ensures table_after { table.new ≡ (tally_call table.old line counts).table }
    ensures refused { IfErr result (λ e. number_of e ≢ 0) }
    ensures case { IfErr result (IsFor counts.number) }
{
    let lines = table.len();
    if line < lines {
        table[line] = sheet_tally::judged(table[line], line, lines, counts)?;
        return Ok(());
    }
    if counts.number != 0 {
        return Err(Refusal::Uncounted(counts.number));
    }
    Err(Refusal::NoLine)
}

// The same, answered by its number, for C.
pub fn tally_plain(table: &mut [Tally], line: usize, counts: Counts) -> u8
    ensures value { result ≡ (tally_call table.old line counts).number }
    ensures table_after { table.new ≡ (tally_call table.old line counts).table }
{
    match tally(table, line, counts) {
        Ok(()) => DONE,
        Err(refusal) => refusal.number(),
    }
}

// The lines of a sheet after a capture, by value, for a caller that holds all of them: a program's main then lends nothing.
pub fn tallied(
    lines: [Tally; sheet::LINES],
    line: usize,
    counts: Counts,
) -> Result<[Tally; sheet::LINES], Refusal>
    ensures answer { sheet_answer lines result ≡ sheet_of lines line counts }
    ensures refused { IfErr result (λ e. number_of e ≢ 0) }
    ensures case { IfErr result (IsFor counts.number) }
{
    let mut table = lines;
    tally(&mut table, line, counts)?;
    Ok(table)
}
