// Reads a job on standard input, and prints its fixed text, or its refusal as `(refused number line)`.
#![tactic(auto)]

fn main(rt: HostRuntime) {
    jobinput::house_input(&rt);
}
