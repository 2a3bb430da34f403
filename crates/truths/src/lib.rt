// True and false as numbers, for C programs (specs/Truths).
#![tactic(auto)]

ghost use Rattle.std.specs.Prelude.{◌≡◌};
ghost use Rattle.truths.specs.Truths.{truth, bit};

// Any number but 0 stands for true.
pub fn truth(n: u8) -> bool
    ensures { result ≡ truth n }
{
    n != 0
}

// True is given back as 1.
pub fn bit(b: bool) -> u8
    ensures { result ≡ bit b }
{
    u8::from(b)
}
