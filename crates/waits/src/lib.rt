// The DLI1s that wait in Invoked, in the order in which they came: the first, a cfnr one, and up to 14 behind it.
#![tactic(auto)]

use notice::Dli1;

// `count` DLI1s wait behind the first, in the first places of `later`; each other place is all 0.
// Stays: a count beside fixed places, since C lends it in its calls and there is no heap.
#[repr(C)]
#[derive(Clone, Copy, Default)]
pub struct Waits {
    pub first: Dli1,
    pub count: u8,
    pub later: [Dli1; 14],
}
