// The open identifiers of a table copied out, those of the station's own requests behind them, and the draw among these. A run keeps
// the column of the calls' from event to event; of a lent slice the driver makes it, where it needs it.
#![tactic(auto)]

ghost use Rattle.std.specs.Prelude.{◌≡◌};
ghost use Rattle.draw.specs.Column.{held_of, held_by, joined_of, first_free_in, identifier_in};

use call::Call;
use event::Event;
use remote::Pendings;
use timed::Pending;

// An open request's identifier plus 1; 0 where none is open.
// Stays: a number, 0 for none, so that a scan of the column compares numbers and has no branch.
fn held_of(p: Pending) -> u32
    ensures { result ≡ held_of p }
{
    if p.wait == 1 {
        (p.identifier as u32) + 1
    } else {
        0
    }
}

// The same of a record.
pub fn held_by(c: Call) -> u32
    ensures { result ≡ held_by c }
{
    held_of(Pending {
        start: c.start,
        identifier: c.identifier,
        wait: c.cds,
    })
}

// A column of the calls' identifiers, with those of the station's own requests behind it.
pub fn joined(held: &[u32; 64], p: Pendings) -> [u32; 68]
    ensures { result ≡ joined_of held.now p }
{
    let mut all = [0u32; 68];
    all[..64].copy_from_slice(held);
    all[64] = held_of(p.activation);
    all[65] = held_of(p.deactivation);
    all[66] = held_of(p.interrogation);
    all[67] = held_of(p.check);
    all
}

// "takes the first identifier from the next one on that no open request has": candidates in a row, each sought in the
// column of the identifiers held; left by label when a candidate is free. The scan goes to the end: without an exit the compiler
// looks at several places at once.
// Stays: the loop left by label, a form that document 01 names.
fn draw(held: &[u32; 68], next: u16) -> u16
    ensures { result ≡ first_free_in 69 held.now next }
{
    let mut candidate = next;
    'candidate: for _ in 0..69u8 {
        let wanted = (candidate as u32) + 1;
        let mut taken = false;
        for id in held {
            taken |= wanted == *id;
        }
        if !taken {
            break 'candidate;
        }
        candidate = identifier::next_after(candidate);
    }
    candidate
}

// The identifier that the event's request takes, from the column of those that calls hold and the station's own; only a divert and
// kinds 16 to 19 ask for one.
pub fn identifier_in(e: Event, held: &[u32; 64], p: Pendings, next: u16) -> u16
    ensures { result ≡ identifier_in e held.now p next }
{
    let kind = e.kind;
    if (kind == 6) | ((16 <= kind) & (kind <= 19)) {
        let all = joined(held, p);
        return draw(&all, next);
    }
    next
}
