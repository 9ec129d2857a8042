// What an event that is done on a record does to it: the rule of its kind.
#![tactic(auto)]

ghost use Rattle.std.specs.Prelude.{◌≡◌};
ghost use Rattle.packed.specs.Messages.{effect_of};
ghost use Rattle.deed.specs.Deed.{acted_of, Doable};

use call::Effect;
use event::Event;
use packed::Packed;
use sight::Seen;

// The rule of the event's kind. Each arm packs what it hands back, before the arms are joined.
// Stays: kinds are numbers, as the C interface has them; neighbours have an arm each, since a range is tested after all others.
#[tactic(auto, unfolding(call::specs::Act::act, call::specs::Incoming::act_incoming, call::specs::Outgoing::act_outgoing))]
fn packed_by_kind(e: Event, seen: Seen) -> Packed
    requires { Doable e seen }
    ensures { effect_of result ≡ acted_of e seen }
{
    let c = seen.call;
    match e.kind {
        // "1 open outgoing"
        1 => Packed::from(message::silent(outgoing::opened_outgoing(e))),
        // "2 open incoming"
        2 => Packed::from(message::silent(incoming::opened_incoming(e))),
        // "3 open incoming with divertingLegInformation2 (DLI2)"
        3 => Packed::from(message::silent(incoming::opened_incoming(e))),
        // "4 user alerted"
        4 => Packed::from(incoming::alerted(c)),
        // "5 user answers"
        5 => Packed::from(incoming::answered(c, e)),
        // "6 divert"
        6 => Packed::from(requests::diverted(c, e, seen.identifier)),
        // "7 callRerouting result"
        7 => Packed::from(requests::granted(c)),
        // "8 callRerouting error or reject"
        8 => Packed::from(requests::rejected(c)),
        // "9 cfnrDivertedLegFailed received"
        9 => Packed::from(requests::rejected(c)),
        // "10 clock"
        10 => Packed::from(requests::expired(c)),
        // "11 own side ends the call"
        11 => Packed::from(ending::ended(c)),
        // "12 callRerouting invoke received"
        12 => Packed::from(rerouting::rerouted(c, e)),
        // "13 divertingLegInformation1 (DLI1) received"
        13 => Packed::from(outgoing::informed(c, e)),
        // "14 message on an outgoing call"
        14 => Packed::from(legs::messaged(c, e)),
        // "15 far end ends an incoming call"
        15 => Packed::from(message::freed()),
        // no other kind is done on a record
        _ => unreachable!(),
    }
}

// What an event that is done on a record does to it.
pub fn acted(e: Event, seen: Seen) -> Effect
    requires { Doable e seen }
    ensures { result ≡ acted_of e seen }
{
    Effect::from(packed_by_kind(e, seen))
}
