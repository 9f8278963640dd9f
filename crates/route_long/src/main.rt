// The route of a job one byte too long: byte 64,001 is seen.
#![tactic(auto)]

fn main(rt: HostRuntime) {
    jobinput::route_input(&rt);
}
