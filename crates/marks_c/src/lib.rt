// The function of `marks` for the C host, under the name and by the calling convention of host/unit_mark.h.
#![tactic(auto)]

ghost use Rattle.std.specs.Prelude.{◌≡◌};
ghost use Rattle.marks.specs.Hosts.{unit_mark_of};

// The mark, as 01 numbers it, for the second of two successive lines of a unit in no chain; 6 for an unknown kind (the C interface takes any
// number) or a line that is not 40 bytes.
#[unsafe(no_mangle)]
pub extern "C" fn unit_mark(kind: u32, earlier: &[u8], later: &[u8]) -> u32
    ensures { result ≡ unit_mark_of kind earlier.now later.now }
{
    marks::unit_mark(kind, earlier, later)
}
