// The program of a day of wholesale demand response (02, 2026-04): reads `day.bin`, the earlier target's 4 bytes and
// then the records, and prints one line.
//
// What it prints of what it read is proved (crate `response_text`). Reading and writing are left: no contract can say
// what a file holds. A file that cannot be opened, or not read, counts as empty, which is no day.
#![tactic(auto)]

use output::Output;

fn main(rt: HostRuntime) {
    // A day has 3,460 bytes, so with one byte more a longer file is seen to be too long.
    let mut day = [0; 3461];
    let count = input::read(&rt, b"day.bin", &mut day);
    let mut out = [0; response_text::ROOM];
    let length = response_text::put_file(&mut out, &day[..count]);
    if let Some(line) = out.get(..length) {
        let output = Output {
            rt: &rt,
            what: b"response_day: standard output",
        };
        output.write(line);
    }
}
