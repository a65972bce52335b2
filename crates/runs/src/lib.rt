// Runs of the programs: a part of the file is read, a step is made of it and its text is written, before the next part
// is read.
//
// A step is proved where it is declared. Reading, writing and going on are left: no contract can say what a file holds.
#![tactic(auto)]

ghost use Rattle.std.specs.Prelude.{◌≤◌, IsTrue};

use output::Output;
use std::convert::AsSlice;
use std::io::{Eprint, Print, Read};
use turns::Turn;

// What a program reads, part after part. The end is an empty part.
pub trait Parts {
    // Puts the next part at the start of `bytes`, and returns its length.
    fn next(&mut self, bytes: &mut [u8; 8200]) -> usize
        ensures { result ≤ 8200 };
}

// The calls of a list, each as long as its first 8 bytes say.
#[derive(Drop)]
pub struct Calls<R>(pub R);

impl<R: Read> Parts for Calls<R> {
    fn next(&mut self, bytes: &mut [u8; 8200]) -> usize {
        input::read_call(&mut self.0, bytes)
    }
}

// Parts of one size, which is at most 8,200. The last may be shorter.
#[derive(Drop)]
pub struct Blocks<R> {
    pub reader: R,
    pub size: usize,
}

impl<R: Read> Parts for Blocks<R> {
    fn next(&mut self, bytes: &mut [u8; 8200]) -> usize {
        let size = self.size.min(8200);
        input::read_full(&mut self.reader, &mut bytes[..size])
    }
}

// Writes a step's text, which is the first bytes of `out`, in one write, and says whether the run goes on: it ends
// where the step says so, and where the write fails.
pub fn write<R: Print + Eprint, S: Copy>(output: &Output<R>, turn: Turn<S>, out: &[u8]) -> bool
    ensures { IsTrue result → IsTrue turn.more }
{
    let Some(text) = out.get(..turn.length) else {
        return false;
    };
    output.write(text) && turn.more
}

// Step after step, until `write` says that the run ends. A step is given the place of its part in the file. A proved
// loop has to end, and nothing says that a file does, so the steps are counted, to a million million, which no run uses
// up.
//
// The programs share this; the `main` of each names its own file, state and step. It promises nothing: no contract can
// say what a file holds, and so which steps are made.
pub fn run<R, P, S, B, F>(output: &Output<R>, mut parts: P, start: S, mut out: B, step: F)
where
    R: Print + Eprint,
    P: Parts + Drop,
    S: Copy,
    B: AsSlice<u8> + Drop,
    F: Fn(S, u64, &[u8], &mut B) -> Turn<S> + Drop,
    requires { F.IsAlwaysCallable step }
{
    let mut bytes = [0; frames::ROOM];
    let mut state = start;
    let mut at = 0;
    for _ in 0..1_000_000_000_000u64 {
        let taken = parts.next(&mut bytes);
        let turn = step(state, at, &bytes[..taken], &mut out);
        if !write(output, turn, out.as_slice()) {
            return;
        }
        state = turn.state;
        // A cast: std has no `From` from usize to u64, and `try_from` would add a case that cannot be.
        at += taken as u64;
    }
}
