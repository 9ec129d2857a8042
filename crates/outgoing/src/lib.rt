// "Rules for outgoing calls": a call that is opened and a DLI1 that is received; an invoke is in `rerouting`.
// Stays: the codes of a record are numbers, as the C interface has them.
#![tactic(auto)]

ghost use Rattle.std.specs.Prelude.{◌≡◌};
ghost use Rattle.call.specs.Outgoing.{opened_outgoing, dli1_of, to_cdo, informed};

use call::{Call, Effect};
use event::Event;
use notice::{Dli1, Noticed};

// "1 open outgoing"
pub fn opened_outgoing(e: Event) -> Call
    ensures { result ≡ opened_outgoing e }
{
    Call {
        direction: 1,
        basic: 1,
        party: e.first,
        ..blank::free_call()
    }
}

// What a received DLI1 or invoke tells the own CDO.
pub fn dli1_of(e: Event) -> Dli1
    ensures { result ≡ dli1_of e }
{
    Dli1 {
        reason: e.reason,
        option: e.option,
        number: e.second,
    }
}

// "DLI1: CDO Divert."
pub fn to_cdo(n: Noticed, c: Call) -> Call
    ensures { result ≡ to_cdo n c }
{
    Call {
        cdo: 1,
        history: n.history,
        ..c
    }
}

// "13: .."
pub fn informed(c: Call, e: Event) -> Effect
    ensures { result ≡ informed c e }
{
    let noticed = c.history.take_dli1(dli1_of(e));
    Effect {
        notice: noticed.notice,
        ..message::silent(to_cdo(noticed, c))
    }
}
