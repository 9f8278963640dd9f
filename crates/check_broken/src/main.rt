// The check of a broken layout: one net has two lines and another none, and so the sum of track 1 is false, which is the first broken line.
#![tactic(auto)]

fn main(rt: HostRuntime) {
    checkfiles::check_files(&rt);
}
