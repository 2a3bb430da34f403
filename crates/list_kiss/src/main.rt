// Lists a captured KISS line from standard input.
#![tactic(auto)]

fn main(rt: HostRuntime) {
    list_stdin::list(&rt, true, 0);
}
