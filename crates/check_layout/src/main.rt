// Checks board.lay for board.job, and prints `(sound)`, `(broken line)` or `(refused number line)`.
#![tactic(auto)]

fn main(rt: HostRuntime) {
    checkfiles::check_files(&rt);
}
