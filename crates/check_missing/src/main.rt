// The check where the layout's file is missing: it counts as empty.
#![tactic(auto)]

fn main(rt: HostRuntime) {
    checkfiles::check_files(&rt);
}
