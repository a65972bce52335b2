// The program of a ledger of wholesale demand response (02, 2026-05): runs the list of calls in `ledger.bin` on an
// empty ledger and prints one answer a call. The format stands in `crates/ledger_script/specs/Items.antt`. A call that
// cannot be read prints `script error at byte N`, N being the place of its tag, and ends the run.
//
// What it prints of the bytes that it read is proved (crate `ledger_script`). Reading, writing and going on are left:
// no contract can say what a file holds. A file that cannot be opened counts as empty.
#![tactic(auto)]

use output::Output;
use runs::Calls;
use std::fs::File;

fn main(rt: HostRuntime) {
    if let Ok(file) = File::open(&rt, "ledger.bin") {
        let output = Output {
            rt: &rt,
            what: b"response_ledger: standard output",
        };
        runs::run(
            &output,
            Calls(file),
            ledger::new_ledger(),
            [0; ledger_script::ROOM],
            ledger_script::step,
        );
    }
}
