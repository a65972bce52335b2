// Standard output, for the programs. What is written is not proved: no contract can say it.
#![tactic(auto)]

use std::io::{Eprint, Error, Print, Write};
use std::{io, str};

// Where a program's text goes. `what` is named in a line on standard error where a write fails; it is bytes,
// since a `&str` would ask text of callers.
#[derive(Drop)]
pub struct Output<'a, R> {
    pub rt: &'a R,
    pub what: &'a [u8],
}

impl<'a, R: Print + Eprint> Output<'a, R> {
    // A line on standard error that begins with `what`, where that is text.
    fn tell(&self, error: Error) -> io::Result<()> {
        match str::from_utf8(self.what) {
            Ok(text) => eprintln!(self.rt; "{text}: {error}"),
            Err(_) => eprintln!(self.rt; "{error}"),
        }
    }

    // Writes `text` in one write, and says whether that went well. A write that fails is told.
    pub fn write(&self, text: &[u8]) -> bool {
        let written = io::writer(self.rt).write_all(text);
        if let Err(error) = written {
            let _told = self.tell(error);
            return false;
        }
        true
    }
}
