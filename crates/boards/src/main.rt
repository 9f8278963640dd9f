// Reads jobs on standard input, each ended by byte 255, and prints for each its layout or its refusal.
#![tactic(auto)]

// Prints the layout or the refusal of each job on standard input. A failure to print is passed over.
fn main(rt: HostRuntime) {
    jobinput::route_each(&rt);
}
