// Numbers through `text`, and what is left of short buffers. Every expected line (tools/trial_text.txt) is worked out
// by hand.

use crate::cases;
use output::Output;
use std::io::{Eprint, Print};
use text::Field;

fn write_field<R: Print + Eprint>(output: &Output<R>, field: Field) -> bool {
    let mut out = [0; 32];
    let next = text::put_fields(&mut out, 0, &[field]);
    cases::write_line(output, b"", &[Field::Words(out.get(..next).unwrap_or(&[]))])
}

// The next place, and the bytes of the buffer.
fn write_buffer<R: Print + Eprint>(output: &Output<R>, next: usize, bytes: &[u8]) -> bool {
    cases::write_line(output, b"", &[Field::U64(next as u64), Field::Words(bytes)])
}

// A signed number takes at most 11 bytes, so it is put into 12 from place 0 or 1 alone.
fn whole_at<R: Print + Eprint>(output: &Output<R>, at: usize) -> bool {
    let mut bytes = [b'.'; 12];
    let next = text::put_fields(&mut bytes, at, &[Field::I32(-128000000)]);
    write_buffer(output, next, &bytes)
}

// Words, a space, at most 20 digits and the end of the line: 29 bytes with these words, of which 30 are lent.
fn refused_at<R: Print + Eprint>(output: &Output<R>, at: usize) -> bool {
    let mut bytes = [b'.'; 30];
    let next = text::put_line(&mut bytes, at, &[Field::Words(b"refused"), Field::U64(8)]);
    write_buffer(output, next, &bytes)
}

// A record takes at most 83 bytes of text: one line fits into 83, and two do not.
fn report_of<R: Print + Eprint>(output: &Output<R>, report: &[u8]) -> bool {
    let mut bytes = [b'.'; 83];
    let next = text::put_report(&mut bytes, 0, 10, report);
    write_buffer(output, next, &bytes)
}

fn write_all<R: Print + Eprint>(output: &Output<R>) -> bool {
    let numbers = [0, 9, 10, 99, 100, 4294967295, 18446744073709551615];
    let wholes = [0, 7, -1, 2147483647, -2147483648];
    let record = [
        4, 5, 0, 0, 0xa9, 0xe4, 0xff, 0xff, 0xc0, 0x27, 0x09, 0, 0xc8, 0x6b, 0x01, 0,
    ];
    numbers.iter().all(|n| write_field(output, Field::U64(*n)))
        && wholes.iter().all(|z| write_field(output, Field::I32(*z)))
        && [0, 1, 2, 13, usize::MAX]
            .iter()
            .all(|at| whole_at(output, *at))
        && [0, 1, 2].iter().all(|at| refused_at(output, *at))
        && report_of(output, &record)
        && report_of(output, &[0; 32])
        && report_of(output, &[0; 15])
}

// All that is printed is one case.
pub(crate) fn run_case<R: Print + Eprint>(output: &Output<R>, cases: &mut &[u8]) -> Option<bool> {
    *cases = &[];
    Some(write_all(output))
}
