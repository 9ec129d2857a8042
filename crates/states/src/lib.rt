// Numbers 10 and 11: whether the state rules take an event, by its call's basic state alone or by its other states.
#![tactic(auto)]

ghost use Rattle.std.specs.Prelude.{◌≡◌};
ghost use Rattle.event.specs.Refusals.{code_of};
ghost use Rattle.call.specs.State.{incoming_forbids, message_forbids, outgoing_forbids, incoming_basic_forbids, message_basic_forbids, outgoing_basic_forbids, ten_or_eleven, state_number};

use call::Call;
use event::{Event, Refusal};

// Document 02, Eight: no sound record in the call's basic state takes the event. Here and below `basic_forbids` is that test, by the basic state
// alone, and `forbids` the state rules'.
// Stays: the kind beside its event, a literal in each arm of numbers::number_by_kind: tried written into the event instead, a step takes 15 % more instructions at 8 records.
fn incoming_basic_forbids(kind: u8, c: Call, e: Event) -> bool
    requires { kind ≡ e.kind }
    ensures { result ≡ incoming_basic_forbids c e }
{
    let fit = reasons::fits(e.reason, c);
    let basic = c.basic;
    ((kind == 4) & (basic != 1))
        | ((kind == 5) & (basic == 3))
        | ((kind == 6) & !fit)
        | (((kind == 7) | (kind == 8)) & (basic == 3))
        | ((kind == 9) & (basic != 2))
}

fn incoming_forbids(kind: u8, c: Call, e: Event) -> bool
    requires { kind ≡ e.kind }
    ensures { result ≡ incoming_forbids c e }
{
    let fit = reasons::fits(e.reason, c);
    let requested = c.cds == 1;
    let granted = c.granted == 1;
    let leaving = (requested | granted) & ((c.reason == 1) | (c.reason == 2));
    let granted_cfnr = granted & (c.reason == 3);
    ((kind == 4) & ((c.basic != 1) | leaving))
        | ((kind == 5) & ((c.basic == 3) | leaving))
        | ((kind == 6) & (!fit | (requested | granted)))
        | (((kind == 7) | (kind == 8)) & !requested)
        | ((kind == 9) & !granted_cfnr)
}

fn message_basic_forbids(c: Call, e: Event) -> bool
    ensures { result ≡ message_basic_forbids c e }
{
    if e.leg == 2 {
        return (e.message == 1) | (c.basic != 2);
    }
    (c.basic == 3) & (e.message != 4)
}

fn message_forbids(c: Call, e: Event) -> bool
    ensures { result ≡ message_forbids c e }
{
    let on_leg_2 = e.leg == 2;
    let facility = e.message == 1;
    (on_leg_2 & (c.cdr != 1))
        | (facility & on_leg_2)
        | (facility & (c.cdo != 1))
        | ((c.basic == 3) & (e.message != 4))
}

fn outgoing_basic_forbids(kind: u8, c: Call, e: Event) -> bool
    requires { kind ≡ e.kind }
    ensures { result ≡ outgoing_basic_forbids c e }
{
    let message = message_basic_forbids(c, e);
    ((kind == 12) & (e.leg == 2) & (c.basic != 2))
        | ((kind == 13) & (c.basic == 3))
        | ((kind == 14) & message)
}

fn outgoing_forbids(kind: u8, c: Call, e: Event) -> bool
    requires { kind ≡ e.kind }
    ensures { result ≡ outgoing_forbids c e }
{
    let message = message_forbids(c, e);
    ((kind == 12) & (e.leg == 2) & (c.cdr != 1))
        | ((kind == 13) & (c.basic == 3))
        | ((kind == 14) & message)
}

// "10 is tested first"
fn split(none: bool, forbids: bool) -> Result<(), Refusal>
    ensures { code_of result ≡ ten_or_eleven none forbids }
{
    if none {
        Err(Refusal::NotInBasicState)
    } else if forbids {
        Err(Refusal::NotTaken)
    } else {
        Ok(())
    }
}

fn incoming_number(kind: u8, c: Call, e: Event) -> Result<(), Refusal>
    requires { kind ≡ e.kind }
    ensures { code_of result ≡ ten_or_eleven (incoming_basic_forbids c e) (incoming_forbids c e) }
{
    let none = incoming_basic_forbids(kind, c, e);
    let forbids = incoming_forbids(kind, c, e);
    split(none, forbids)
}

fn outgoing_number(kind: u8, c: Call, e: Event) -> Result<(), Refusal>
    requires { kind ≡ e.kind }
    ensures { code_of result ≡ ten_or_eleven (outgoing_basic_forbids c e) (outgoing_forbids c e) }
{
    let none = outgoing_basic_forbids(kind, c, e);
    let forbids = outgoing_forbids(kind, c, e);
    split(none, forbids)
}

// 10 or 11 where "The state rules below don't take the event": by the groups of kinds.
#[tactic(auto, unfolding(call::specs::State::basic_forbids, call::specs::State::state_forbids))]
pub fn state_number(kind: u8, c: Call, e: Event) -> Result<(), Refusal>
    requires { kind ≡ e.kind }
    ensures { code_of result ≡ state_number c e }
{
    match kind {
        1..=3 => Ok(()),
        4..=9 | 15 => incoming_number(kind, c, e),
        10 | 11 => Ok(()),
        12..=14 => outgoing_number(kind, c, e),
        _ => Ok(()),
    }
}
