// "What a record may hold": when one record is sound, by cases that each look at few fields, since the walk over a lent table reads a record anew in each.
// Fields that are unused are tested together, by words.
#![tactic(auto)]

ghost use Rattle.std.specs.Prelude.{◌≡◌, ◌&&◌};
ghost use Rattle.waits.specs.Soundness.{waits_hold};
ghost use Rattle.call.specs.Record.{delivered};
ghost use Rattle.call.specs.Soundness.{history_unused, outgoing_unused, incoming_unused, outgoing_codes, history_holds, divert_holds, sound_call};
ghost use Rattle.sound.specs.Cases.{diverted_by, closed_by, request_by, open_base, incoming_base, incoming_rest, open_by, incoming_by, outgoing_base, told_by, waiting_by, outgoing_by, free_by};
ghost use Rattle.sound.specs.Words.{legs_word, party_word, codes_word, numbers_word, past_word};

use call::Call;
use notice::History;

// Fields that lie side by side in memory, as one number: the compiler reads it by one load. CDO and CDR.
fn legs_word(c: Call) -> u64
    ensures { result ≡ legs_word c }
{
    u16::from_le_bytes([c.cdo, c.cdr]) as u64
}

// The party on leg 1, and the history.
// Stays: `from_le_bytes`, here and in the two words of numbers, would take the numbers apart into bytes before it joins them, and is no plainer.
fn party_word(c: Call) -> u64
    ensures { result ≡ party_word c }
{
    let h = c.history;
    (c.party as u64)
        + 65536 * (h.seen as u64)
        + 16777216 * (h.strictest as u64)
        + 4294967296 * (h.forbidden as u64)
        + 1099511627776 * (h.shown as u64)
        + 281474976710656 * (h.nominated as u64)
}

// CDS, CDF, the granted mark and the counter.
fn codes_word(c: Call) -> u64
    ensures { result ≡ codes_word c }
{
    u32::from_le_bytes([c.cds, c.cdf, c.granted, c.counter]) as u64
}

// The numbers of an incoming call, and its identifier.
fn numbers_word(c: Call) -> u64
    ensures { result ≡ numbers_word c }
{
    (c.own as u64)
        + 65536 * (c.diverting as u64)
        + 4294967296 * (c.original as u64)
        + 281474976710656 * (c.identifier as u64)
}

// Those of a diversion before.
fn past_word(c: Call) -> u64
    ensures { result ≡ past_word c }
{
    (c.diverting as u64) + 65536 * (c.original as u64)
}

// All that only an outgoing call has is 0.
fn outgoing_unused(c: Call) -> bool
    ensures { result ≡ outgoing_unused c }
{
    let waiting = c.waiting;
    let legs = legs_word(c);
    let party = party_word(c);
    let unused = soundwaits::waits_unused(waiting);
    (legs == 0) & (party == 0) & unused
}

// All that only an incoming call has is 0.
fn incoming_unused(c: Call) -> bool
    ensures { result ≡ incoming_unused c }
{
    let codes = codes_word(c);
    let numbers = numbers_word(c);
    (codes == 0) & (numbers == 0) & (c.reason == 0) & (c.start == 0)
}

// "It is all 0 before the first DLI1"
fn history_unused(h: History) -> bool
    ensures { result ≡ history_unused h }
{
    (h.seen == 0) & (h.strictest == 0) & (h.forbidden == 0) & (h.shown == 0) & (h.nominated == 0)
}

// The call was diverted up to 15 times before, or not at all.
fn diverted_holds(c: Call) -> bool
    ensures { result ≡ diverted_by c }
{
    let counter = c.counter;
    let cdf = c.cdf;
    if counter == 0 {
        let past = past_word(c);
        return (cdf == 0) & (past == 0);
    }
    (counter <= 15) & ((cdf == 2) | ((cdf == 1) & (c.basic != 3)))
}

// No request is open: one was granted, or none was.
fn closed_holds(c: Call) -> bool
    ensures { result ≡ closed_by c }
{
    let cds = c.cds;
    let granted = c.granted;
    if granted == 1 {
        return (cds == 0) & (c.identifier == 0) & (c.start == 0) && reasons::fits(c.reason, c);
    }
    (cds == 0) & (granted == 0) & (c.reason == 0) & (c.identifier == 0) & (c.start == 0)
}

// What holds of an open request. Whether the reason fits is asked last: it costs most.
fn request_holds(c: Call, last: u64) -> bool
    ensures { result ≡ request_by last c }
{
    (c.granted == 0) & (c.identifier != 0) & (c.start <= last) && reasons::fits(c.reason, c)
}

// What holds of each incoming call's record beside its basic state. With an open request no more is asked of the state than that the reason fits it: such a one is in range.
fn open_base(c: Call) -> bool
    ensures { result ≡ open_base c }
{
    let unused = outgoing_unused(c);
    unused & (c.own != 0)
}

// What holds of each incoming call's record.
fn incoming_base(c: Call) -> bool
    ensures { result ≡ incoming_base c }
{
    let unused = outgoing_unused(c);
    let basic = c.basic;
    unused & ((1 <= basic) & (basic <= 3)) & (c.own != 0)
}

// The short case: neither diverted nor a request, so nothing else is there.
fn incoming_rest(c: Call) -> bool
    ensures { result ≡ incoming_rest c }
{
    (c.diverting == 0)
        & (c.original == 0)
        & ((c.reason == 0) & (c.identifier == 0) & (c.start == 0))
}

// "Incoming: ..", of a record with an open request;
pub fn sound_open(c: Call, last: u64) -> bool
    ensures { result ≡ open_by last c }
{
    open_base(c) && diverted_holds(c) && request_holds(c, last)
}

// of one without.
pub fn sound_incoming(c: Call) -> bool
    ensures { result ≡ incoming_by c }
{
    if !incoming_base(c) {
        return false;
    }
    if codes_word(c) == 0 {
        return incoming_rest(c);
    }
    diverted_holds(c) && closed_holds(c)
}

// "each code is in range"
fn outgoing_codes(c: Call) -> bool
    ensures { result ≡ outgoing_codes c }
{
    (1 <= c.basic) & (c.basic <= 3) & (c.cdo <= 1) & (c.cdr <= 1)
}

// A history of a call with a DLI1, or of one without.
fn history_holds(h: History) -> bool
    ensures { result ≡ history_holds h }
{
    if h.seen == 1 {
        (h.strictest <= 2) & (h.forbidden <= 1) & (h.shown <= 1) & (h.nominated != 0)
    } else {
        history_unused(h)
    }
}

// "CDO is Divert exactly when a DLI1 was seen and the state isn't Active"
fn divert_holds(c: Call) -> bool
    ensures { result ≡ divert_holds c }
{
    let divert = c.cdo == 1;
    let told = (c.history.seen == 1) & (c.basic != 3);
    (divert & told) | (!divert & !told)
}

// What holds of each outgoing call's record.
fn outgoing_base(c: Call) -> bool
    ensures { result ≡ outgoing_base c }
{
    let unused = incoming_unused(c);
    let codes = outgoing_codes(c);
    unused & codes & (c.party != 0)
}

// What holds of the history beside CDO.
fn told_holds(c: Call) -> bool
    ensures { result ≡ told_by c }
{
    history_holds(c.history) && divert_holds(c)
}

// "CDR is Invoked only in Delivered and with reason cfnr"
fn delivered_holds(c: Call) -> bool
    ensures { result ≡ (delivered c && waits_hold c.waiting) }
{
    let waiting = c.waiting;
    (c.basic == 2) & soundwaits::waits_hold(waiting)
}

// "Outgoing: ..", of a record with CDR Invoked;
pub fn sound_waiting(c: Call) -> bool
    ensures { result ≡ waiting_by c }
{
    outgoing_base(c) && delivered_holds(c) && told_holds(c)
}

// of one outside Invoked, in which none may wait.
pub fn sound_outgoing(c: Call) -> bool
    ensures { result ≡ outgoing_by c }
{
    outgoing_base(c) && soundwaits::waits_unused(c.waiting) && told_holds(c)
}

// "A record is free": each field is 0. One whose direction is out of range is unsound.
pub fn sound_free(c: Call) -> bool
    ensures { result ≡ free_by c }
{
    let outgoing = outgoing_unused(c);
    let incoming = incoming_unused(c);
    (c.direction == 0) & ((c.basic == 0) & outgoing & incoming)
}

// One record is sound, where the station's last time is given.
pub fn sound_call(c: Call, last: u64) -> bool
    ensures { result ≡ sound_call last c }
{
    let direction = c.direction;
    if direction == 2 {
        if c.cds == 1 {
            return sound_open(c, last);
        }
        return sound_incoming(c);
    }
    if direction == 1 {
        if c.cdr == 1 {
            return sound_waiting(c);
        }
        return sound_outgoing(c);
    }
    sound_free(c)
}
