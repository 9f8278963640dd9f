// Reads a job on standard input, and prints its layout, or its refusal as `(refused number line)`.
#![tactic(auto)]

fn main(rt: HostRuntime) {
    jobinput::route_input(&rt);
}
