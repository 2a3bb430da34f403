// Lists a captured line from standard input at level 0.
#![tactic(auto)]

fn main(rt: HostRuntime) {
    list_stdin::list(&rt, false, 0);
}
