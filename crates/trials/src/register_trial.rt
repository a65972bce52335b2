// Registers as `tools/trial_register.py` writes them, and whether `register` accepts each.

use crate::cases;
use output::Output;
use std::io::{Eprint, Print};
use text::Field;

fn first_case<'a>(cases: &mut &'a [u8]) -> Option<(&'a [u8], &'a [u8])> {
    Some((cases::sized(cases)?, cases::long_sized(cases)?))
}

// A case is a label and a register, with its length in two bytes.
pub(crate) fn run_case<R: Print + Eprint>(output: &Output<R>, cases: &mut &[u8]) -> Option<bool> {
    let Some((label, bytes)) = first_case(cases) else {
        *cases = &[];
        return Some(output.write(b"truncated case\n"));
    };
    let (words, number) = match register::read_register(bytes) {
        Ok(registered) => (&b": accepted"[..], registered.visits),
        Err(refusal) => (&b": refused"[..], u32::from(refusal)),
    };
    Some(cases::write_line(output, label, &[Field::Words(words), Field::U32(number)]))
}
