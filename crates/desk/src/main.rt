// The desk program, run on the example: a program has a main of its own, which passes on.
#![tactic(auto)]

fn main(rt: HostRuntime) {
    console::run(&rt);
}
