// Event records, well made or not; `wire` reads them from their bytes, `wellmade` tests their fields.
#![tactic(auto)]

ghost use Rattle.std.specs.Prelude.{◌≡◌};
ghost use Rattle.event.specs.Refusals.{number_of};

// One event; a field that its kind doesn't use is 0.
// Stays: codes and numbers of none, since C writes it.
#[repr(C)]
#[derive(Clone, Copy, Default)]
pub struct Event {
    pub kind: u8,
    pub call: u8,
    pub leg: u8,
    pub message: u8,
    pub reason: u8,
    pub option: u8,
    pub counter: u8,
    pub flag: u8,
    pub identifier: u16,
    pub first: u16,
    pub second: u16,
    pub third: u16,
    pub time: u64,
}

// Why an event is refused: "Numbers of the answers", each by its name and with its number.
#[derive(Clone, Copy, PartialEq, Eq)]
pub enum Refusal {
    NotSound = 1,
    Early = 2,
    IllMade = 3,
    NoSuchCall = 4,
    OtherIdentifier = 6,
    OverLimit = 7,
    NoFreeRecord = 8,
    PendingAlready = 9,
    NotInBasicState = 10,
    NotTaken = 11,
}

impl Refusal {
    // The code of the answer.
    pub fn number(self) -> u8
        ensures { result ≡ number_of self }
    {
        self as u8
    }
}
