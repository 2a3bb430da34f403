// Converts a KISS capture from standard input to QAFT at level 0.
#![tactic(auto)]

fn main(rt: HostRuntime) {
    convert_stdin::convert(&rt, false, 0);
}
