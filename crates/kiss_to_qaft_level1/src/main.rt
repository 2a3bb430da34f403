// Converts a KISS capture from standard input to QAFT at level 1.
#![tactic(auto)]

fn main(rt: HostRuntime) {
    convert_stdin::convert(&rt, false, 1);
}
