// A plan's text; `planreading` reads it.
#![tactic(auto)]

// What is known behind a piece of the text. `line` is the line that is being read, from 1; `numbers` counts its numbers that are
// whole, and `value` is the one that is being read, once its first digit is there (`begun`). Each whole number moves the ones
// before it up a place, so that at the end of a panel's line each stands under its name. `fault` is the first line that is no part
// of a plan.
// Stays: a flag beside the number, since `planreading` takes any pair of the two, and the theorems are over each; an Option would ask more.
#[derive(Clone, Copy, Default)]
pub struct Reading {
    pub line: usize,
    pub numbers: u8,
    pub begun: bool,
    pub value: u16,
    pub start: u16,
    pub cfu: u16,
    pub cfb: u16,
    pub cfnr: u16,
    pub busy: u16,
    pub fault: Option<usize>,
}
