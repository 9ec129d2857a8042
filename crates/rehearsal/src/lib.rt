// Who will ring tonight: a panel of a plan, and the answer.
#![tactic(auto)]

// A panel: three destinations, 0 for none, and two marks, 0 or 1.
// Stays: the numbers that C lends, four for each panel, as the definition `panel_of` reads them.
#[derive(Clone, Copy, Default)]
pub struct Panel {
    pub cfu: u16,
    pub cfb: u16,
    pub cfnr: u16,
    pub busy: u8,
    pub unattended: u8,
}

// The answer. `code` is 0, or 3 where the plan is refused; `ending` is 1 rings, 2 busy, 3 limit; where it is refused both
// ending and last panel are 0 and the counter is 255, since 0 is a counter.
// Stays: codes beside the numbers and no Result, since C reads it.
#[repr(C)]
#[derive(Clone, Copy)]
pub struct Rehearsed {
    pub code: u8,
    pub ending: u8,
    pub last: u16,
    pub counter: u8,
}
