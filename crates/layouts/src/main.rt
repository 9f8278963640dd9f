// Reads jobs and layouts on standard input, in turn, each ended by byte 255, and prints for each pair the verdict of the check.
#![tactic(auto)]

use texts::Texts;

// Room for the texts.
fn room() -> [u8; 1048576] {
    [0u8; 1048576]
}

// Prints the verdict on each pair on standard input; a job without a layout is checked with the empty one. A failure to print is passed over.
fn main(rt: HostRuntime) {
    let mut input = room();
    let n = files::read_full(&mut rt.reader(), &mut input);
    let mut texts = Texts::new(&input[..n]);
    while let Some(job) = texts.next() {
        let layout = texts.next().unwrap_or(&[]);
        let _ = rt.write_all(verdicts::print_check(job, layout).text());
    }
}
