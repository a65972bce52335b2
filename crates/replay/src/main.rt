// Runs the list of calls in `calls.bin` on a monitor with no register and prints one answer a call. The format stands
// in `crates/script/specs/Items.antt`. A call that cannot be read prints `script error at byte N`, N being the place of
// its tag, and ends the run.
//
// What it prints of the bytes that it read is proved (crate `script`). Reading, writing and going on are left: no
// contract can say what a file holds. A file that cannot be opened counts as empty.
#![tactic(auto)]

use monitor::Monitor;
use output::Output;
use runs::Calls;
use std::fs::File;

fn main(rt: HostRuntime) {
    if let Ok(file) = File::open(&rt, "calls.bin") {
        let output = Output {
            rt: &rt,
            what: b"replay: standard output",
        };
        runs::run(
            &output,
            Calls(file),
            Monitor::begin(None),
            [0; program::ROOM],
            script::step,
        );
    }
}
