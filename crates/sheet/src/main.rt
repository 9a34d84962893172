// Reads a log on standard input to its end, and writes its row for the spreadsheet under a line of names; or `refused`, 12 and the
// number of the first bad line.
#![tactic(auto)]

fn main(rt: HostRuntime) {
    let mut room = io::large_buffer();
    // A failure was said on standard error.
    let _ = intake::sheet(&rt, &mut room);
}
