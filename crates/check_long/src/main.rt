// The check of a layout text one byte too long: byte 64,001 is seen.
#![tactic(auto)]

fn main(rt: HostRuntime) {
    checkfiles::check_files(&rt);
}
