// The line sheet: what a capture makes of the record of its line, by value (specs/Adding). The table of records is the crate sheet_table.
#![tactic(auto)]

ghost use Rattle.std.specs.Prelude.{◌≡◌, ◌≢◌, IfErr};
ghost use Rattle.sheet.specs.Answers.{number_of, IsFor};
ghost use Rattle.sheet.specs.declared.Refusal.TheVariants.{CountTooLarge};
ghost use Rattle.sheet_tally.specs.Adding.{added_of, judged_of, answer_of};

use sheet::{Counts, Refusal, Tally};

// The sums, where none of them would pass 32 bits. A sum is made only where it fits, so none wraps.
fn add(t: Tally, counts: Counts) -> Result<Tally, Refusal>
    ensures answer { answer_of t result ≡ added_of t counts }
    ensures refused { IfErr result (λ e. e ≡ CountTooLarge) }
{
    let old = t.counts;
    let more = counts.counts;
    let mut new = old;
    for i in 0..sheet::COUNTS {
        let n = u64::from(old[i]);
        if sheet::MAX_COUNT - n < more[i] {
            return Err(Refusal::CountTooLarge);
        }
        new[i] = (n + more[i]) as u32;
    }
    Ok(Tally { counts: new })
}

// What a capture makes of the record of its line, in a table of so many records. The first refusal that applies: the one by which
// nothing was counted, no such line, a count too large. The record is then to stay as it was.
pub fn judged(t: Tally, line: usize, lines: usize, counts: Counts) -> Result<Tally, Refusal>
    ensures answer { answer_of t result ≡ judged_of t line lines counts }
    ensures refused { IfErr result (λ e. number_of e ≢ 0) }
    ensures case { IfErr result (IsFor counts.number) }
{
    if counts.number != 0 {
        return Err(Refusal::Uncounted(counts.number));
    }
    if sheet::LINES <= line {
        return Err(Refusal::NoLine);
    }
    if lines <= line {
        return Err(Refusal::NoLine);
    }
    add(t, counts)
}
