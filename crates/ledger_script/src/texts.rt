// The answers in text, put at the start of a buffer.
ghost use Rattle.std.specs.Prelude.{[], ◌∷◌, ◌≤◌, length};
ghost use Rattle.text.specs.Numbers.{ascii};
ghost use Rattle.text.specs.Lines.{line, numbered_of};
ghost use Rattle.text.specs.Puts.{Put};
ghost use Rattle.ledger_script.specs.Texts.{accepted_text};

use response::Day;
use text::Field;

// Words and a number. The words are any bytes, as a field's are. Each call gives a literal: a type for short words would be no plainer.
pub(crate) fn put_numbered(out: &mut [u8; 128], words: &[u8], number: u64) -> usize
    requires { length words.now ≤ 20 }
    ensures { Put out.old 0 (numbered_of words.now number) result out.new }
{
    text::put_line(out, 0, &[Field::Words(words), Field::U64(number)])
}

// The day's values, and whether the unit is declared after the call.
pub(crate) fn put_accepted(out: &mut [u8; 128], day: Day, declared: bool) -> usize
    ensures { Put out.old 0 (accepted_text day declared) result out.new }
{
    let fields = [
        Field::Words(b"day accepted"),
        Field::I64(day.response),
        Field::U32(day.target),
        Field::Words(response_text::flag_word(day.flag)),
        Field::U32(day.under),
        Field::U32(day.over),
        Field::U8(declared.into()),
    ];
    text::put_line(out, 0, &fields)
}

pub(crate) fn put_reinstated(out: &mut [u8; 128]) -> usize
    ensures { Put out.old 0 (line (ascii "reinstate accepted" ∷ [])) result out.new }
{
    text::put_line(out, 0, &[Field::Words(b"reinstate accepted")])
}
