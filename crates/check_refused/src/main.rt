// The check of a layout for a job that is refused.
#![tactic(auto)]

fn main(rt: HostRuntime) {
    checkfiles::check_files(&rt);
}
