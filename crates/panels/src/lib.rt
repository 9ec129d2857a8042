// The panels of a plan, four numbers each: what a panel does with a call that it is offered.
#![tactic(auto)]

ghost use Rattle.std.specs.Prelude.{◌≡◌, ◌+◌, ◌≤◌, length, get_or};
ghost use Rattle.rehearsal.specs.Plan.{panel_of, panels_of, panel_at, forwards_to, reason_of};

use rehearsal::Panel;

// The panel whose four numbers start at i.
fn read_panel(plan: &[u16], i: usize) -> Panel
    requires { i + 4 ≤ length plan.now }
    ensures { result ≡ panel_of (get_or plan.now i 0) (get_or plan.now (i + 1) 0) (get_or plan.now (i + 2) 0) (get_or plan.now (i + 3) 0) }
{
    let [busy, unattended] = plan[i + 3].to_le_bytes();
    Panel {
        cfu: plan[i],
        cfb: plan[i + 1],
        cfnr: plan[i + 2],
        busy,
        unattended,
    }
}

// The panel of this number; one that has nothing set where the plan has none.
#[tactic(auto, using(rehearsal::proofs::Panels::none_at_zero, rehearsal::proofs::Panels::none_past, rehearsal::proofs::Panels::found_at))]
pub fn panel_at(plan: &[u16], number: u16) -> Panel
    ensures { result ≡ panel_at (panels_of plan.now) number }
{
    let place = number as usize;
    if place == 0 || plan.len() / 4 < place {
        return Panel::default();
    }
    read_panel(plan, (place - 1) * 4)
}

// The panel to which this one forwards a call that it is offered; 0 where it keeps it.
// Stays: 0 for none is the plan's own number, which callers of `whipsail_rehearse` write.
pub fn forwards_to(p: Panel) -> u16
    ensures { result ≡ forwards_to p }
{
    if p.cfu != 0 {
        p.cfu
    } else if p.busy == 1 {
        p.cfb
    } else if p.unattended == 1 {
        p.cfnr
    } else {
        0
    }
}

// By which of the three it forwards: 1 cfu, 2 cfb, 3 cfnr.
// Stays: the reasons' numbers of the C interface, which event records have too.
pub fn reason_of(p: Panel) -> u8
    ensures { result ≡ reason_of p }
{
    if p.cfu != 0 {
        1
    } else if p.busy == 1 {
        2
    } else {
        3
    }
}
