// Counts that stop at a limit, so that nothing is counted wrong however much there is of it: a count that has reached the limit
// stays where it is (specs/Counted).
#![tactic(auto)]

ghost use Rattle.std.specs.Prelude.{◌≡◌};
ghost use Rattle.counter.specs.Counted.{counted};

// The count `n` and so many more, of a counter that stops at `most`.
pub fn add(most: u64, n: u64, more: u64) -> u64
    ensures { result ≡ counted most n more }
{
    if most <= n {
        return n;
    }
    if most - n <= more {
        return most;
    }
    n + more
}
