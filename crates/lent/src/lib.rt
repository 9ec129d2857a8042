// One event on the records that a host lends: they are looked at one at a time, the one where the event acts is read once more, and
// the open identifiers are copied out where they are needed. Nothing is written here.
#![tactic(auto)]

ghost use Rattle.std.specs.Prelude.{◌≡◌, ◌≤◌, length};
ghost use Rattle.pick.specs.Pick.{picked_of};
ghost use Rattle.decision.specs.Decision.{decision_on};

use call::Call;
use change::Decision;
use pick::{Input, Pick};
use survey::Noted;

// The column is made only where it is needed: a second walk over the first n records.
fn picked(table: &[Call], n: usize, v: Noted, input: Input) -> Pick
    requires { (n ≤ length table.now) × (n ≤ 64) }
    ensures { result ≡ picked_of input v n table.now }
{
    if pick::wants_column(v, input) {
        let held = copy::column(table, n);
        return pick::from_column(input, v, held);
    }
    pick::as_it_stands(input)
}

// One event on any slice.
pub fn looked(table: &[Call], input: Input) -> Decision
    ensures { result ≡ decision_on input.station table.now input.event }
{
    let n = slice::fit(table.len());
    let q = pick::asked(input);
    let v = survey::survey(table, n, q);
    let place = pick::place_seen(v, input);
    let c = slice::record_at(table, n, place);
    let p = picked(table, n, v, input);
    decision::decided_on(input, v, n, p, c)
}
