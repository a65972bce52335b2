// The line that the program of a day of wholesale demand response prints (02, 2026-04).
#![tactic(auto)]

ghost use Rattle.std.specs.Prelude.{◌≡◌, ◌≤◌, length};
ghost use Rattle.text.specs.Puts.{Put};
ghost use Rattle.response_text.specs.Texts.{flag_text, day_text, file_text};

use records::Flag;
use response::Day;
use text::Field;

// Room for any line.
pub const ROOM: usize = 64;

// The word of a flag. No `Display`: `text` says why.
pub fn flag_word(flag: Option<Flag>) -> &'static [u8]
    ensures word { result.now ≡ flag_text flag }
    ensures short { length result.now ≤ 5 }
{
    match flag {
        None => b"none",
        Some(Flag::Under) => b"under",
        Some(Flag::Over) => b"over",
    }
}

fn put_day(out: &mut [u8; 64], day: Day) -> usize
    ensures { Put out.old 0 (day_text day) result out.new }
{
    let fields = [
        Field::I64(day.response),
        Field::U32(day.target),
        Field::Words(flag_word(day.flag)),
        Field::U32(day.under),
        Field::U32(day.over),
    ];
    text::put_line(out, 0, &fields)
}

// What is printed of a file's bytes, put at the start of `out`; the length is returned.
pub fn put_file(out: &mut [u8; 64], bytes: &[u8]) -> usize
    ensures { Put out.old 0 (file_text bytes.now) result out.new }
{
    match response::assess_file(bytes) {
        Ok(day) => put_day(out, day),
        Err(refusal) => text::put_line(
            out,
            0,
            &[Field::Words(b"refused"), Field::U32(refusal.into())],
        ),
    }
}
