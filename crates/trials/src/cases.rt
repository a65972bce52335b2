// What the trials share: a case is taken off the front of what is left of a block of standard input.

ghost use Rattle.std.specs.Prelude.{◌≡◌, ◌↔◌, ◌+◌, ◌%◌, ◌/◌, ◌≤◌, ◌∷◌, ◌++◌, length, get_or, IfSome, IsSome};

use output::Output;
use std::io::{Eprint, Print, Read};
use text::Field;

// A block: the number of a trial, and cases of it, of which none begins that ends in another block.
const BLOCK: usize = 65537;

const BLOCKS: usize = 12;

// Bytes with their number before them, in one byte. Here and in `long_sized` their numbers are read from one byte and from two, by no common
// method.
pub fn sized<'a>(cases: &mut &'a [u8]) -> Option<&'a [u8]>
    ensures bytes { IfSome result (λ part. cases.old.now ≡ length part.now ∷ (part.now ++ cases.new.now)) }
    ensures variant { IsSome result ↔ (1 + get_or cases.old.now 0 0 ≤ length cases.old.now) }
{
    let size = cases.split_off_first()?;
    cases.split_off(..usize::from(*size))
}

// The same with their number in two bytes, the low one first.
pub fn long_sized<'a>(cases: &mut &'a [u8]) -> Option<&'a [u8]>
    ensures { IfSome result (λ part. cases.old.now ≡ length part.now % 256 ∷ length part.now / 256 ∷ (part.now ++ cases.new.now)) }
{
    let low = cases.split_off_first()?;
    let high = cases.split_off_first()?;
    cases.split_off(..usize::from(u16::from_le_bytes([*low, *high])))
}

// Room for the longest label and what stands behind it in any line.
const LINE: usize = 512;

// The line of a case, in one write: its label, which may be any bytes, and right behind it the fields. Says whether that went well. It promises
// nothing: no contract can say what is written.
pub fn write_line<R: Print + Eprint>(output: &Output<R>, label: &[u8], fields: &[Field]) -> bool {
    let mut line = [0; LINE];
    let behind = text::put_fields(&mut line, 0, &[Field::Words(label)]);
    let length = text::put_line(&mut line, behind, fields);
    match line.get(..length) {
        Some(text) => output.write(text),
        None => false,
    }
}

// Runs `case` on the number of a block's trial and what is left of the block, until there is no further case in it, or what it writes
// fails. The closure holds what it prints to, and is given the rest.
//
// It promises nothing: no contract can say what standard input holds, and so which cases are run.
pub fn run<I: Read, F: Fn(u8, &mut &[u8]) -> Option<bool> + Drop>(input: &mut I, case: F)
    requires { F.IsAlwaysCallable case }
{
    let mut block = [0; BLOCK];
    for _ in 0..BLOCKS {
        let count = input::read_full(input, &mut block);
        let mut cases = &block[..count];
        let Some(trial) = cases.split_off_first() else {
            return;
        };
        // A case has at least a byte.
        for _ in 0..count {
            match case(*trial, &mut cases) {
                Some(true) => (),
                Some(false) => return,
                None => break,
            }
        }
    }
}
