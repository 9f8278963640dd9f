// The check where the job's file is missing: it counts as empty.
#![tactic(auto)]

fn main(rt: HostRuntime) {
    checkfiles::check_files(&rt);
}
