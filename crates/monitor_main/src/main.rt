// The program (01, "The program"): reads `register.bin`, then `intervals.bin` buffer after buffer, and prints a line a
// point.
//
// What it prints of what it read is proved (crate `program`). Reading, writing and going on are left: no contract can
// say what a file holds. A file that cannot be opened, or not read, counts as empty.
#![tactic(auto)]

use output::Output;
use runs::Blocks;
use std::fs::File;

fn main(rt: HostRuntime) {
    let output = Output {
        rt: &rt,
        what: b"monitor_main: standard output",
    };
    // The longest register has 336 bytes, so with one byte more a longer file is seen to be too long.
    let mut register = [0; 337];
    let count = input::read(&rt, b"register.bin", &mut register);
    let mut out = [0; program::ROOM];
    let turn = program::start(&register[..count], &mut out);
    if !runs::write(&output, turn, &out) {
        return;
    }
    if let Ok(reader) = File::open(&rt, "intervals.bin") {
        let size = program::interval_size(turn.state);
        runs::run(
            &output,
            Blocks { reader, size },
            turn.state,
            out,
            |m, _, buffer, out| program::step(m, buffer, out),
        );
    }
}
