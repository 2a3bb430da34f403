// What a capture that is held whole adds to its record of the line sheet (specs/Count): for C programs, and for tests. A capture that
// need not be held whole is counted by the crate sheet_counter, chunk after chunk.
#![tactic(auto)]

ghost use Rattle.std.specs.Prelude.{◌≡◌};
ghost use Rattle.sheet_count.specs.Count.{refused, count_call};

use sheet::Counts;
use sheet_counter::Counter;

// The counts of the capture. Refusal: 6, and every count is then 0.
pub fn count(level: u8, capture: &[u8]) -> Counts
    ensures { result ≡ count_call level capture.now }
{
    let mut buffer = [0u8; qaft::MAX_SEGMENT];
    match Counter::new(level).count(capture, &mut buffer) {
        Ok(counter) => counter.counts(),
        Err(refusal) => refused(refusal.number()),
    }
}

fn refused(number: u8) -> Counts
    ensures { result ≡ refused number }
{
    let counts = [0u64; sheet::COUNTS];
    Counts { number, counts }
}
