// What is asked of the records that a host lends, and what is picked of their identifiers: what the survey is asked, where the event acts, whether the open
// identifiers are copied out, and what they tell. No record is looked at here.
#![tactic(auto)]

ghost use Rattle.std.specs.Prelude.{◌≡◌, ◌-◌};
ghost use Rattle.timed.specs.Timed.{t1};
ghost use Rattle.pick.specs.Pick.{asked_of, place_seen, wants_column, apart_where, from_column, as_it_stands};

use event::Event;
use station::Station;
use survey::{Asked, Noted};

// What comes in beside the table.
#[repr(C)]
#[derive(Clone, Copy)]
pub struct Input {
    pub station: Station,
    pub event: Event,
}

// What the open identifiers tell: that no two are the same, and the one that a request would take.
#[derive(Clone, Copy)]
pub struct Pick {
    pub apart: bool,
    pub identifier: u16,
}

// The time below which the start of a request that is due lies.
fn due_before(time: u64) -> u64
    ensures { result ≡ time - (t1 - 1) }
{
    time.saturating_sub(expiry::T1 - 1)
}

// What the survey is asked.
pub fn asked(input: Input) -> Asked
    ensures { result ≡ asked_of input }
{
    let station = input.station;
    Asked {
        last: station.last,
        by: due_before(input.event.time),
        next: station.next,
        pending: station.remote.pending,
    }
}

// Where the event acts.
pub fn place_seen(v: Noted, input: Input) -> usize
    ensures { result ≡ place_seen v input }
{
    let e = input.event;
    sight::place_of(e, v.free, v.due)
}

// The column of identifiers is needed where two marks are the same, and for a request where the identifier that it would take first has one.
pub fn wants_column(v: Noted, input: Input) -> bool
    ensures { result ≡ wants_column v input }
{
    let kind = input.event.kind;
    let asks = (kind == 6) | ((16 <= kind) & (kind <= 19));
    v.clash | (v.marked & asks)
}

// Identifiers are compared only where two marks are the same.
fn apart_where(clash: bool, held: &[u32; 68]) -> bool
    ensures { result ≡ apart_where clash held.now }
{
    if clash { table::apart(held) } else { true }
}

// What the column of identifiers tells.
pub fn from_column(input: Input, v: Noted, held: [u32; 64]) -> Pick
    ensures { result ≡ from_column input v held }
{
    let e = input.event;
    let next = input.station.next;
    let p = input.station.remote.pending;
    let all = draw::joined(&held, p);
    let apart = apart_where(v.clash, &all);
    let identifier = draw::identifier_in(e, &held, p, next);
    Pick { apart, identifier }
}

// All marks differ; and no identifier is asked for, or the next one has no mark.
pub fn as_it_stands(input: Input) -> Pick
    ensures { result ≡ as_it_stands input }
{
    Pick {
        apart: true,
        identifier: input.station.next,
    }
}
