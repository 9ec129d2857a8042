// What the caller is told: the history of the DLI1 and DLI3 of one call.
#![tactic(auto)]

ghost use Rattle.std.specs.Prelude.{◌≡◌};
ghost use Rattle.notice.specs.Notice.{strictest_with, gives_notice, notice_of, reopened, take_dli1, may_show, number_shown, after_dli3, take_dli3};

// A divertingLegInformation1: the reason, the option and the nominated number.
#[repr(C)]
#[derive(Clone, Copy, Default)]
pub struct Dli1 {
    pub reason: u8,
    pub option: u8,
    pub number: u16,
}

// All 0 before the first DLI1 of the call. `seen`, `forbidden` and `shown` are marks, 0 or 1; `shown` is of what was shown since
// the last cfnr DLI1.
// Stays: marks of 0 and 1, since a record of the C interface (`Call`) holds them.
#[repr(C)]
#[derive(Clone, Copy, Default)]
pub struct History {
    pub seen: u8,
    pub strictest: u8,
    pub forbidden: u8,
    pub shown: u8,
    pub nominated: u16,
}

// The history after a DLI1, and the notice that it gives; 255 where it gives none, since 0 is a reason.
// Stays: 255 for none, the byte of the answer that C reads (`Answer::notice`) and of the definition `notice_of`.
#[repr(C)]
#[derive(Clone, Copy)]
pub struct Noticed {
    pub notice: u8,
    pub history: History,
}

// The history after a DLI3, and the number that it shows; 0 where it shows none.
// Stays: 0 for none, the number of the answer that C reads (`Answer::number`) and of the definition `number_shown`.
#[repr(C)]
#[derive(Clone, Copy)]
pub struct Shown {
    pub number: u16,
    pub history: History,
}

impl History {
    fn strictest_with(self, option: u8) -> u8
        ensures { result ≡ strictest_with self option }
    {
        if self.seen == 1 {
            self.strictest.min(option)
        } else {
            option
        }
    }

    fn gives_notice(self, d: Dli1) -> bool
        ensures { result ≡ gives_notice self d }
    {
        let option = self.strictest_with(d.option);
        if self.seen == 1 {
            (d.reason == 3) & (option != 0)
        } else {
            d.option != 0
        }
    }

    fn notice_of(self, d: Dli1) -> u8
        ensures { result ≡ notice_of self d }
    {
        if self.gives_notice(d) { d.reason } else { 255 }
    }

    // A cfnr DLI1 opens the way for another number.
    fn reopened(self, reason: u8) -> History
        ensures { result ≡ reopened self reason }
    {
        if reason == 3 {
            History { shown: 0, ..self }
        } else {
            self
        }
    }

    pub fn take_dli1(self, d: Dli1) -> Noticed
        ensures { result ≡ take_dli1 self d }
    {
        let notice = self.notice_of(d);
        let h = self.reopened(d.reason);
        let history = History {
            seen: 1,
            strictest: h.strictest_with(d.option),
            nominated: d.number,
            ..h
        };
        Noticed { notice, history }
    }

    fn may_show(self, flag: u8) -> bool
        ensures { result ≡ may_show self flag }
    {
        (flag == 1) & (self.strictest == 2) & (self.forbidden == 0) & (self.shown == 0)
    }

    pub fn number_shown(self, flag: u8, number: u16) -> u16
        ensures { result ≡ number_shown self flag number }
    {
        if self.may_show(flag) {
            if number == 0 { self.nominated } else { number }
        } else {
            0
        }
    }

    fn after_dli3(self, flag: u8) -> History
        ensures { result ≡ after_dli3 self flag }
    {
        if flag == 2 {
            History {
                forbidden: 1,
                ..self
            }
        } else if self.may_show(flag) {
            History { shown: 1, ..self }
        } else {
            self
        }
    }

    // With flag 0 there is no DLI3: nothing is shown and the history stays.
    pub fn take_dli3(self, flag: u8, number: u16) -> Shown
        ensures { result ≡ take_dli3 self flag number }
    {
        Shown {
            number: self.number_shown(flag, number),
            history: self.after_dli3(flag),
        }
    }
}
