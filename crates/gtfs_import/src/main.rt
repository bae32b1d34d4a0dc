// Takes a timetable from stop_times.txt and change.txt: a program has a main of its own, which passes on.
#![tactic(auto)]

fn main(rt: HostRuntime) {
    feed_desk::import_feed(&rt);
}
