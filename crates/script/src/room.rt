// The length of the report buffer of an interval.
ghost use Rattle.std.specs.Prelude.{◌≤◌};

#[derive(Clone, Copy)]
pub(crate) struct Room {
    pub(crate) bytes: usize,
    ghost within: { bytes ≤ 4096 },
}
