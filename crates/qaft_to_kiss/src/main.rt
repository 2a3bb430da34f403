// Converts a QAFT capture from standard input at level 0 to KISS.
#![tactic(auto)]

fn main(rt: HostRuntime) {
    convert_stdin::convert(&rt, true, 0);
}
