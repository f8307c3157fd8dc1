// The script program. It has no meter.
#![tactic(auto)]

fn main(rt: HostRuntime) {
    running::run(&rt, false);
}
