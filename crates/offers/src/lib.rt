// A call is offered to the panels of a plan, one after the other, until one keeps it.
#![tactic(auto)]

ghost use Rattle.std.specs.Prelude.{◌≡◌, ◌+◌, ◌≤◌, ◌<◌, length};
ghost use Rattle.ground.specs.Lists.{all};
ghost use Rattle.rehearsal.specs.Plan.{panels_of, panel_ok};
ghost use Rattle.rehearsal.specs.Rehearsal.{ended, kept_as, offered, forwarded, is_plan, rehearsal_of};

use event::Refusal;
use rehearsal::{Panel, Rehearsed};

// The destinations are absent or in the plan, and the marks are 0 or 1.
fn panel_ok(p: Panel, panels: usize) -> bool
    ensures { result ≡ panel_ok panels p }
{
    p.cfu as usize <= panels
        && p.cfb as usize <= panels
        && p.cfnr as usize <= panels
        && p.busy <= 1
        && p.unattended <= 1
}

// Every panel of a plan that is not too long is as it should be.
#[tactic(auto, using(rehearsal::proofs::Panels::place_is, ground::proofs::Walks::all_on, ground::proofs::Walks::all_get), unfolding(ground::specs::Lists::all))]
fn panels_ok(plan: &[u16], panels: usize) -> bool
    requires { (panels ≡ length (panels_of plan.now)) × (panels ≤ 256) }
    ensures { result ≡ all (panel_ok panels) (panels_of plan.now) }
{
    for i in 0..panels {
        if !panel_ok(panels::panel_at(plan, (i + 1) as u16), panels) {
            return false;
        }
    }
    true
}

// The test behind number 3: "an empty plan, one over 256 panels, or a start or destination outside the plan".
#[tactic(auto, using(rehearsal::proofs::Panels::panels_long, rehearsal::proofs::Panels::shape_then_panels, rehearsal::proofs::Panels::shape_small))]
fn plan_ok(plan: &[u16], start: u16) -> bool
    ensures { result ≡ is_plan plan.now start }
{
    let panels = plan.len() / 4;
    let place = start as usize;
    let shaped = (plan.len() % 4 == 0)
        & (1 <= panels)
        & (panels <= 256)
        & (1 <= place)
        & (place <= panels);
    shaped && panels_ok(plan, panels)
}

// Stays: code and ending are numbers of the C interface's `Rehearsed`.
fn end_at(last: u16, ending: u8, counter: u8) -> Rehearsed
    ensures { result ≡ ended last ending counter }
{
    Rehearsed {
        code: 0,
        ending,
        last,
        counter,
    }
}

// How a call ends at a panel that keeps it: 1 rings, 2 busy.
fn kept_as(p: Panel) -> u8
    ensures { result ≡ kept_as p }
{
    if p.busy == 1 { 2 } else { 1 }
}

// "A panel offered a call forwards it"; one that does not keeps it.
#[cycle(forward_offer)]
#[tactic(auto, using(rehearsal::proofs::Offers::kept_here, rehearsal::proofs::Offers::forwarded_on_lem), unfolding(rehearsal::specs::Plan::next))]
fn offer(plan: &[u16], at: u16, left: u8, counter: u8) -> Rehearsed
    requires { counter + left < 256 }
    ensures { result ≡ offered (panels_of plan.now) at left counter }
{
    let p = panels::panel_at(plan, at);
    let to = panels::forwards_to(p);
    if to == 0 {
        return end_at(at, kept_as(p), counter);
    }
    forward(plan, at, to, left, counter)
}

// "and a forward offers it to the next panel"; where none is left, the call stays with the panel that wanted to forward it.
#[cycle(forward_offer)]
fn forward(plan: &[u16], at: u16, to: u16, left: u8, counter: u8) -> Rehearsed
    requires { counter + left < 256 }
    ensures { result ≡ forwarded (panels_of plan.now) at to left counter }
{
    if left == 0 {
        return end_at(at, 3, counter);
    }
    offer(plan, to, left - 1, counter + 1)
}

// Who rings if a call is offered to this panel first.
pub fn rehearse(plan: &[u16], start: u16) -> Rehearsed
    ensures { result ≡ rehearsal_of plan.now start }
{
    if !plan_ok(plan, start) {
        return Rehearsed {
            code: Refusal::IllMade.number(),
            ending: 0,
            last: 0,
            counter: 255,
        };
    }
    let short = fresh::fresh_short();
    offer(plan, start, short.limit, 0)
}
