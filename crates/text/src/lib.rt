// Text in ASCII, put into a buffer that the caller lends, from a place on. Each function returns the next place. None asks anything of
// its caller: where fewer bytes are left than the longest text of its kind takes, the buffer keeps its bytes and the place stays.
// `Display` is not used: its contract says what is written where writing succeeds, and not that it succeeds where there is room.
// They take a buffer and a place, and no writer: a caller puts one text into a buffer that it lends, and wants the length back.
#![tactic(auto)]

mod field;
mod writer;

ghost use Rattle.std.specs.Prelude.{◌≡◌, ◌≤◌, min, length};
ghost use Rattle.text.specs.Lines.{line, joined, lines_of};
ghost use Rattle.text.specs.Puts.{PutWithin, has_room, most, longest_lines};
ghost use Rattle.text.specs.Fields.{texts, longest_fields, longest_line_of};

pub use field::Field;
use writer::Writer;

// Fields with one space between.
pub fn put_fields(out: &mut [u8], at: usize, fields: &[Field]) -> usize
    ensures { PutWithin (longest_fields fields.now) out.old at (joined (texts fields.now)) result out.new }
{
    let mut writer = Writer { out, at };
    if writer.has_room_for_fields(fields) {
        writer.put_fields(fields);
    }
    writer.at
}

// A line of fields with one space between. It stands beside `put_fields`: one function for both would take a flag for the end of the line.
pub fn put_line(out: &mut [u8], at: usize, fields: &[Field]) -> usize
    ensures { PutWithin (longest_line_of fields.now) out.old at (line (texts fields.now)) result out.new }
{
    let mut writer = Writer { out, at };
    if writer.has_room_for_line(fields) {
        writer.put_line(fields);
    }
    writer.at
}

// The lines of a report.
pub fn put_report(out: &mut [u8], at: usize, interval: u32, report: &[u8]) -> usize
    ensures { PutWithin (longest_lines report.now) out.old at (lines_of interval report.now) result out.new }
{
    let mut writer = Writer { out, at };
    if writer.has_room_for_points(report) {
        writer.put_points(interval, report);
    }
    writer.at
}
