// Runs the cases of standard input, of the trial that each block names, and prints what the library makes of each.
// tools/make_trials.py has the blocks, and what must be printed, worked out by hand. A write that fails ends the run.
#![tactic(auto)]

mod cases;
mod marks_trial;
mod passes_trial;
mod register_trial;
mod samples;
mod telemetry_trial;
mod text_trial;

use output::Output;
use std::io::{Eprint, Print};

fn run_case<R: Print + Eprint>(output: &Output<R>, trial: u8, cases: &mut &[u8]) -> Option<bool> {
    // No label is empty: a zero ends the cases of a block.
    if matches!(cases.first(), None | Some(0)) {
        return None;
    }
    match trial {
        1 => telemetry_trial::run_case(output, cases),
        2 => marks_trial::run_case(output, cases),
        3 => passes_trial::run_case(output, cases),
        4 => register_trial::run_case(output, cases),
        5 => text_trial::run_case(output, cases),
        _ => None,
    }
}

fn main(rt: HostRuntime) {
    let output = Output {
        rt: &rt,
        what: b"trials: standard output",
    };
    cases::run(&mut rt.stdin(), |trial, cases| {
        run_case(&output, trial, cases)
    });
}
