// The script program with a meter: the commands of the script program, and those of a meter over its network.
#![tactic(auto)]

fn main(rt: HostRuntime) {
    running::run(&rt, true);
}
