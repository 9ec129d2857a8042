// One event on what was noted of the records that a host lends, what was picked of their identifiers, and the record where the event acts: what goes
// out, and which record changes. No record is looked at here, and none is written.
#![tactic(auto)]

ghost use Rattle.std.specs.Prelude.{◌≡◌, ◌≤◌};
ghost use Rattle.decision.specs.Decision.{decision_by};
ghost use Rattle.decision.specs.Words.{head_word, codes_word, first_word, second_word, event_of};

use call::Call;
use change::Decision;
use event::{Event, Refusal};
use pick::{Input, Pick};
use sight::Seen;
use survey::Noted;
use turn::DoneOn;

// Fields side by side, as one number: the compiler reads it by one load.
fn head_word(e: Event) -> u32
    ensures { result ≡ head_word e }
{
    u32::from_le_bytes([e.kind, e.call, e.leg, e.message])
}

fn codes_word(e: Event) -> u32
    ensures { result ≡ codes_word e }
{
    u32::from_le_bytes([e.reason, e.option, e.counter, e.flag])
}

// Stays: the sums of two fields of 16 bits, since no conversion of the library's makes one number of two; by way of four bytes it is no plainer.
fn first_word(e: Event) -> u32
    ensures { result ≡ first_word e }
{
    (e.identifier as u32) + 65536 * (e.first as u32)
}

fn second_word(e: Event) -> u32
    ensures { result ≡ second_word e }
{
    (e.second as u32) + 65536 * (e.third as u32)
}

fn event_of(head: u32, codes: u32, first: u32, second: u32, time: u64) -> Event
    ensures { result ≡ event_of head codes first second time }
{
    let [kind, call, leg, message] = head.to_le_bytes();
    let [reason, option, counter, flag] = codes.to_le_bytes();
    Event {
        kind,
        call,
        leg,
        message,
        reason,
        option,
        counter,
        flag,
        identifier: (first % 65536) as u16,
        first: (first / 65536) as u16,
        second: (second % 65536) as u16,
        third: (second / 65536) as u16,
        time,
    }
}

// The event itself, by way of four numbers: the compiler then holds those, and not twelve fields.
fn held(e: Event) -> Event
    ensures { result ≡ e }
{
    let head = head_word(e);
    let codes = codes_word(e);
    let first = first_word(e);
    let second = second_word(e);
    event_of(head, codes, first, second, e.time)
}

// One event, on what was noted and picked of the first n records and on the record where it acts.
pub fn decided_on(input: Input, v: Noted, n: usize, p: Pick, c: Call) -> Decision
    requires { n ≤ 64 }
    ensures { result ≡ decision_by input v n p c }
{
    let s = input.station;
    let e = held(input.event);
    if !(bounds::in_bounds(n, s) & v.sound & p.apart) {
        return change::unchanged(Refusal::NotSound.number(), s);
    }
    let place = pick::place_seen(v, input);
    let identifier = p.identifier;
    let seen = Seen {
        len: n,
        place,
        identifier,
        call: c,
    };
    match turn::turned(s, e, seen) {
        Err(refusal) => change::unchanged(refusal.number(), s),
        Ok(DoneOn::Held) => {
            let m = follow::step(s.remote, e, identifier);
            change::moved(m, outcome::station_far(s, e, identifier, m.remote))
        }
        Ok(DoneOn::Record) => {
            let x = deed::acted(e, seen);
            change::changed(place, x, outcome::station_on(s, e, identifier))
        }
    }
}
