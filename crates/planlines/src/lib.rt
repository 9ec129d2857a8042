// The lines of an answer, written into a lent buffer: what the rehearsal of a plan says, or which line is no part of a plan.
// Stays: printing without `fmt`; std ensures nothing of the bytes that it writes.
#![tactic(auto, using(digits::proofs::Digits::decimal_8, digits::proofs::Digits::decimal_16))]

ghost use Rattle.std.specs.Prelude.{◌+◌, ◌*◌, ◌≤◌, length};
ghost use Rattle.digits.specs.Written.{Written};
ghost use Rattle.digits.specs.Text.{HasRoom, Wrote};
ghost use Rattle.rehearsal.specs.Plan.{panels_of};
ghost use Rattle.planlines.specs.Lines.{ending_word, reason_word, step_text, way, last_text, outcome_text, answer_text, rehearsal_text, fault_text};

use digits::Text;
use rehearsal::Rehearsed;

// Stays: endings by number; `Rehearsed` is answered to C, and its ending is a byte there.
fn write_ending(text: &mut Text, ending: u8)
    requires { HasRoom 5 text.old }
    ensures { Wrote 5 (ending_word ending) text.old text.new }
{
    match ending {
        1 => text.put_bytes(b"rings"),
        2 => text.put_bytes(b"busy"),
        _ => text.put_bytes(b"limit"),
    }
}

// Stays: reasons by number, as `panels::reason_of` answers them and events bring them from C.
fn write_reason(text: &mut Text, reason: u8)
    requires { HasRoom 4 text.old }
    ensures { Wrote 4 (reason_word reason) text.old text.new }
{
    match reason {
        1 => text.put_bytes(b"cfu"),
        2 => text.put_bytes(b"cfb"),
        _ => text.put_bytes(b"cfnr"),
    }
}

// A panel that forwards the call, with its reason.
fn write_step(text: &mut Text, panel: u16, reason: u8)
    requires { HasRoom 20 text.old }
    ensures { Wrote 11 (step_text panel reason) text.old text.new }
{
    text.decimal(panel as u64);
    text.put(b' ');
    write_reason(text, reason);
    text.put(b' ');
}

// The way: each panel that forwarded the call, then the last.
fn write_way(text: &mut Text, plan: &[u16], start: u16, forwards: u8)
    requires { HasRoom (forwards * 11 + 20) text.old }
    ensures { Wrote (forwards * 11 + 5) (way (panels_of plan.now) start forwards) text.old text.new }
{
    let mut panel = start;
    for _ in 0..forwards {
        let p = panels::panel_at(plan, panel);
        write_step(text, panel, panels::reason_of(p));
        panel = panels::forwards_to(p);
    }
    text.decimal(panel as u64);
}

// Number and last panel.
fn write_last(text: &mut Text, code: u8, last: u16)
    requires { HasRoom 24 text.old }
    ensures { Wrote 10 (last_text code last) text.old text.new }
{
    text.decimal(code as u64);
    text.put(b' ');
    text.decimal(last as u64);
    text.put(b' ');
}

// The first line: number, last panel, ending and counter.
fn write_outcome(text: &mut Text, code: u8, last: u16, ending: u8, counter: u8)
    requires { HasRoom 36 text.old }
    ensures { Wrote 20 (outcome_text code last ending counter) text.old text.new }
{
    write_last(text, code, last);
    write_ending(text, ending);
    text.put(b' ');
    text.decimal(counter as u64);
    text.put(b'\n');
}

// The answer: 2,831 bytes at most, with a counter of 255. It asks for room for 20 digits at each number.
fn write_answer(text: &mut Text, plan: &[u16], start: u16, a: Rehearsed)
    requires { HasRoom 2845 text.old }
    ensures { Wrote 2831 (answer_text plan.now start a) text.old text.new }
{
    if a.code == 0 {
        write_outcome(text, a.code, a.last, a.ending, a.counter);
        write_way(text, plan, start, a.counter);
        text.put(b'\n');
    } else {
        text.decimal(a.code as u64);
        text.put_bytes(b" - - -\n");
    }
}

// What the rehearsal of a plan says.
// Stays: buffer and place apart here and in `write_fault`; docs/PROMISES.md names both.
pub fn write_rehearsal(out: &mut [u8], at: usize, plan: &[u16], start: u16) -> usize
    requires { at + 2845 ≤ length out.old }
    ensures { Written (rehearsal_text plan.now start) at out.old out.new result }
{
    let a = offers::rehearse(plan, start);
    let mut text = Text { out, at };
    write_answer(&mut text, plan, start, a);
    text.at
}

// What is told of a text that is no plan.
pub fn write_fault(out: &mut [u8], at: usize, line: usize) -> usize
    requires { at + 57 ≤ length out.old }
    ensures { Written (fault_text line) at out.old out.new result }
{
    let mut text = Text { out, at };
    text.put_bytes(b"rehearse: line ");
    text.decimal(line as u64);
    text.put_bytes(b" is no part of a plan\n");
    text.at
}
