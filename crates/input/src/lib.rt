// Files, for the programs. What a file holds is not proved: no contract can say it.
#![tactic(auto)]

ghost use Rattle.std.specs.Prelude.{◌≡◌, ◌≤◌, length, take};

use std::fs::File;
use std::io::Read;
use std::rt::Files;
use std::str;

// Reads until `bytes` is full, the input ends or a read fails, and returns how many bytes it put at the start.
//
// The loop counts, since `Read::read_exact` does not say how many bytes came before the end.
pub fn read_full<R: Read>(reader: &mut R, bytes: &mut [u8]) -> usize
    ensures in_bounds { result ≤ length bytes.new }
    ensures prefix { result ≡ length (take result bytes.new) }
{
    let mut done = 0;
    while done < bytes.len() {
        match reader.read(&mut bytes[done..]) {
            Ok(0) | Err(_) => break,
            Ok(count) => done += count,
        }
    }
    done
}

// The file's first bytes, as many as it has and `bytes` has room for. A file that cannot be opened, or not read, counts
// as empty, and so does one whose path is no text, since paths are text. The path is bytes, since a `&str` would ask
// text of callers.
pub fn read<R: Files>(rt: &R, path: &[u8], bytes: &mut [u8]) -> usize
    ensures in_bounds { result ≤ length bytes.new }
    ensures prefix { result ≡ length (take result bytes.new) }
{
    let Ok(path) = str::from_utf8(path) else {
        return 0;
    };
    let Ok(mut file) = File::open(rt, path) else {
        return 0;
    };
    read_full(&mut file, bytes)
}

// The bytes of the next call of a list: the first 8, and as many as they ask for.
pub fn read_call<R: Read>(reader: &mut R, call: &mut [u8; 8200]) -> usize
    ensures { result ≤ 8200 }
{
    let head = read_full(reader, &mut call[..8]);
    match frames::wanted(&call[..head]) {
        0 => head,
        size => head + read_full(reader, &mut call[8..8 + size]),
    }
}
