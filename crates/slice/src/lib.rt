// A host lends the table of calls as a slice of records: what of it is worked on, one record of it, and the one record that an event changes.
#![tactic(auto)]

ghost use Rattle.std.specs.Prelude.{◌≡◌, ◌≤◌, ◌<◌, length, take, get_or};
ghost use Rattle.std.specs.Option.{ForSome};
ghost use Rattle.call.specs.Record.{free_call};
ghost use Rattle.station.specs.Table.{at};
ghost use Rattle.slice.specs.Table.{fit_of, settled_at};

use call::Call;

// How many records are worked on: all where there are up to 64, and none of a longer table.
#[tactic(auto, unfolding(crate::specs::Table::fit_of))]
pub fn fit(len: usize) -> usize
    ensures { result ≡ fit_of len }
{
    if len <= 64 { len } else { 0 }
}

// The record at a place that is in the slice.
pub fn read(table: &[Call], i: usize) -> Call
    requires { i < length table.now }
    ensures { result ≡ get_or table.now i free_call }
{
    table[i]
}

// The record at a place among the first n; a free one past them.
pub fn record_at(table: &[Call], n: usize, i: usize) -> Call
    requires { n ≤ length table.now }
    ensures { result ≡ at (take n table.now) i }
{
    if i < n {
        read(table, i)
    } else {
        blank::free_call()
    }
}

// The record that changes stands at its place; none changes where there is none.
#[tactic(auto, unfolding(crate::specs::Table::settled_at))]
pub fn settle(table: &mut [Call], change: Option<(usize, Call)>)
    requires { ForSome change (λ (place, c). place < length table.old) }
    ensures { table.new ≡ settled_at change table.old }
{
    if let Some((place, c)) = change {
        table[place] = c;
    }
}
