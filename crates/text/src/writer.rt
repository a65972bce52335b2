// A buffer that is lent, and the place of the next text in it: whether a text fits, and where it does, the text put piece by piece.
ghost use Rattle.std.specs.Prelude.{◌≡◌, [], ◌∷◌, ◌+◌, ◌%◌, ◌≤◌, length};
ghost use Rattle.text.specs.Numbers.{decimal_of, sign, whole_of};
ghost use Rattle.text.specs.Lines.{line, rest, joined, amounts_of, line_of, lines_of};
ghost use Rattle.text.specs.Puts.{Room, Put, has_room, longest_lines};
ghost use Rattle.text.specs.Fields.{field_text, texts, longest_fields, longest_line_of};
ghost use Rattle.text.specs.Writers.{RoomFor, Writes};

use crate::field::{self, Field};

// The longest line of a point.
const LONGEST_LINE: usize = 83;

// ---- a byte and digits, by a place that goes from one to the next by value: by a writer it is read and stored at each digit, and a run of
// `monitor_main` takes a tenth more time

#[inline(always)]
#[tactic(auto, using(crate::proofs::Puts::stored))]
fn put_byte(out: &mut [u8], at: usize, b: u8) -> usize
    requires { Room out.old at (b ∷ []) }
    ensures { Put out.old at (b ∷ []) result out.new }
{
    out[at] = b;
    at + 1
}

// The last digit of n. It is cast: it fits, and `try_from` would bring an error that cannot be.
#[inline(always)]
fn put_digit(out: &mut [u8], at: usize, n: u64) -> usize
    requires { Room out.old at ((48 + n % 10) ∷ []) }
    ensures { Put out.old at ((48 + n % 10) ∷ []) result out.new }
{
    put_byte(out, at, b'0' + (n % 10) as u8)
}

// The digits of n, the higher ones first.
fn put_digits(out: &mut [u8], at: usize, n: u64) -> usize
    requires { Room out.old at (decimal_of n) }
    ensures { Put out.old at (decimal_of n) result out.new }
{
    if n < 10 {
        return put_digit(out, at, n);
    }
    let last = put_digits(out, at, n / 10);
    put_digit(out, last, n)
}

// Each function that puts a text asks room for its own, so the room is no invariant of the writer. Those that put a byte, a number or a field
// are put into their callers, so that the place of a writer stays in a register.
#[derive(Drop)]
pub(crate) struct Writer<'a> {
    pub(crate) out: &'a mut [u8],
    pub(crate) at: usize,
}

impl Writer<'_> {
    // ---- the room

    // Whether a text of at most this length fits.
    fn has_room(&self, longest: usize) -> bool
        ensures { result ≡ has_room longest self.now.out.now self.now.at }
    {
        self.at <= self.out.len() && longest <= self.out.len() - self.at
    }

    pub(crate) fn has_room_for_fields(&self, fields: &[Field]) -> bool
        ensures room { result ≡ has_room (longest_fields fields.now) self.now.out.now self.now.at }
        ensures within { length (joined (texts fields.now)) ≤ longest_fields fields.now }
    {
        self.has_room(field::longest(fields))
    }

    #[tactic(auto, using(crate::proofs::Fields::line_within))]
    pub(crate) fn has_room_for_line(&self, fields: &[Field]) -> bool
        ensures room { result ≡ has_room (longest_line_of fields.now) self.now.out.now self.now.at }
        ensures within { length (line (texts fields.now)) ≤ longest_line_of fields.now }
    {
        self.has_room(field::longest(fields).saturating_add(1))
    }

    pub(crate) fn has_room_for_points(&self, report: &[u8]) -> bool
        ensures { result ≡ has_room (longest_lines report.now) self.now.out.now self.now.at }
    {
        self.at <= self.out.len() && report.len() / 16 <= (self.out.len() - self.at) / LONGEST_LINE
    }

    // ---- words and numbers

    #[inline(always)]
    fn put_byte(&mut self, b: u8)
        requires { RoomFor self.old (b ∷ []) }
        ensures { Writes self.old (b ∷ []) self.new }
    {
        self.at = put_byte(self.out, self.at, b);
    }

    #[tactic(auto, using(crate::proofs::Puts::copied))]
    fn put_bytes(&mut self, bytes: &[u8])
        requires { RoomFor self.old bytes.now }
        ensures { Writes self.old bytes.now self.new }
    {
        let next = self.at + bytes.len();
        self.out[self.at..next].copy_from_slice(bytes);
        self.at = next;
    }

    #[inline(always)]
    fn put_number(&mut self, n: u64)
        requires { RoomFor self.old (decimal_of n) }
        ensures { Writes self.old (decimal_of n) self.new }
    {
        self.at = put_digits(self.out, self.at, n);
    }

    #[tactic(auto, using(crate::proofs::Writers::nothing))]
    fn put_sign(&mut self, z: i64)
        requires { RoomFor self.old (sign z) }
        ensures { Writes self.old (sign z) self.new }
    {
        if z < 0 {
            self.put_byte(b'-');
        }
    }

    #[inline(always)]
    fn put_whole(&mut self, z: i64)
        requires { RoomFor self.old (whole_of z) }
        ensures { Writes self.old (whole_of z) self.new }
    {
        self.put_sign(z);
        self.put_number(z.unsigned_abs());
    }

    // ---- fields

    #[inline(always)]
    fn put_field(&mut self, field: &Field)
        requires { RoomFor self.old (field_text field.now) }
        ensures { Writes self.old (field_text field.now) self.new }
    {
        match *field {
            Field::Words(words) => self.put_bytes(words),
            Field::U8(n) => self.put_number(u64::from(n)),
            Field::U32(n) => self.put_number(u64::from(n)),
            Field::U64(n) => self.put_number(n),
            Field::I32(z) => self.put_whole(i64::from(z)),
            Field::I64(z) => self.put_whole(z),
        }
    }

    // A field behind a space.
    #[inline(always)]
    fn put_next(&mut self, field: &Field)
        requires { RoomFor self.old (32 ∷ field_text field.now) }
        ensures { Writes self.old (32 ∷ field_text field.now) self.new }
    {
        self.put_byte(b' ');
        self.put_field(field);
    }

    pub(crate) fn put_fields(&mut self, fields: &[Field])
        requires { RoomFor self.old (joined (texts fields.now)) }
        ensures { Writes self.old (joined (texts fields.now)) self.new }
    {
        let [first, others @ ..] = fields else {
            return;
        };
        self.put_field(first);
        for field in others {
            self.put_next(field);
        }
    }

    pub(crate) fn put_line(&mut self, fields: &[Field])
        requires { RoomFor self.old (line (texts fields.now)) }
        ensures { Writes self.old (line (texts fields.now)) self.new }
    {
        self.put_fields(fields);
        self.put_byte(b'\n');
    }

    // ---- the lines of a report

    // Error, trigger and level, each behind a space, and the end of the line.
    #[inline(always)]
    fn put_amounts(&mut self, r: &[u8; 16])
        requires { RoomFor self.old (rest (amounts_of r.now)) }
        ensures { Writes self.old (rest (amounts_of r.now)) self.new }
    {
        self.put_next(&Field::I32(wire::whole_at(r, 4)));
        self.put_next(&Field::U32(wire::word_at(r, 8)));
        self.put_next(&Field::I32(wire::whole_at(r, 12)));
        self.put_byte(b'\n');
    }

    // The line of a point from its record, field by field: by an array of its fields a run of `monitor_main` takes a third more time.
    #[inline(always)]
    fn put_point(&mut self, interval: u32, point: u64, r: &[u8; 16])
        requires { RoomFor self.old (line_of interval point r.now) }
        ensures { Writes self.old (line_of interval point r.now) self.new }
    {
        self.put_field(&Field::U32(interval));
        self.put_next(&Field::U64(point));
        self.put_next(&Field::U8(r[0]));
        self.put_next(&Field::U8(r[1]));
        self.put_next(&Field::U8(r[2]));
        self.put_next(&Field::U8(r[3]));
        self.put_amounts(r);
    }

    // The records of a report are those of points 1, 2 and so on.
    pub(crate) fn put_points(&mut self, interval: u32, report: &[u8])
        requires { RoomFor self.old (lines_of interval report.now) }
        ensures { Writes self.old (lines_of interval report.now) self.new }
    {
        let (records, _) = report.as_chunks::<16>();
        for (record, point) in records.iter().zip(1u64..) {
            self.put_point(interval, point, record);
        }
    }
}
