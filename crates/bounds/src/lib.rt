// The test behind number 1 as far as the table's length and the station decide it; `sound` has that of one record.
#![tactic(auto)]

ghost use Rattle.std.specs.Prelude.{◌≡◌};
ghost use Rattle.bounds.specs.Bounds.{in_bounds};

use station::Station;

// The table's length and the station are as they may be: the test behind number 1, but for the records.
pub fn in_bounds(len: usize, s: Station) -> bool
    ensures { result ≡ in_bounds len s }
{
    let remote = s.remote;
    let limit = s.limit;
    let next = s.next;
    let held = holding::remote_holds(s.last, remote);
    ((1 <= len) & (len <= 64)) & (((1 <= limit) & (limit <= 15)) & (next != 0) & held)
}
