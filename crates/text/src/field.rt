// A field of a line: words, or a number of some width.
ghost use Rattle.std.specs.Prelude.{◌≡◌, ◌≤◌, min, length};
ghost use Rattle.text.specs.Lines.{joined};
ghost use Rattle.text.specs.Puts.{most};
ghost use Rattle.text.specs.Fields.{field_text, texts, longest_field, longest_fields};

#[derive(Clone, Copy)]
pub enum Field<'a> {
    // Any bytes: a `&str` would ask more of the caller.
    Words(&'a [u8]),
    U8(u8),
    U32(u32),
    U64(u64),
    I32(i32),
    I64(i64),
}

impl Field<'_> {
    // The most bytes that a field of its kind takes. The numbers have names because what a pattern binds is known to fit its type.
    fn longest(&self) -> usize
        ensures longest { result ≡ longest_field self.now }
        ensures within { length (field_text self.now) ≤ result }
    {
        match *self {
            Field::Words(words) => words.len(),
            Field::U8(_n) => 3,
            Field::U32(_n) => 10,
            Field::U64(_n) => 20,
            Field::I32(_z) => 11,
            Field::I64(_z) => 20,
        }
    }
}

// The longest text of the fields with one space between; the greatest usize where it is longer, since no buffer has room for either.
pub(crate) fn longest(fields: &[Field]) -> usize
    ensures longest { result ≡ min most (longest_fields fields.now) }
    ensures within { length (joined (texts fields.now)) ≤ longest_fields fields.now }
{
    let [first, others @ ..] = fields else {
        return 0;
    };
    let mut sum = first.longest();
    for field in others {
        sum = sum.saturating_add(1).saturating_add(field.longest());
    }
    sum
}
