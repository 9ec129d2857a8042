// The text of a plan, read byte by byte into a lent plan.
#![tactic(auto)]

ghost use Rattle.std.specs.Prelude.{◌≡◌, ◌+◌, ◌≤◌, length};
ghost use Rattle.digits.specs.Written.{wrote};
ghost use Rattle.plantext.specs.Text.{onward, numbers_before, start_after, at_fault, digit_read, space_read, line_read, whole_line, newline_read, byte_read, mark_byte, packed, ends_panel, stored, text_read, plan_after, closing};

use plantext::Reading;

// The next line's number, as far as 64 bits go.
fn next_number(line: usize) -> usize
    ensures { result ≡ onward line }
{
    line.saturating_add(1)
}

// How many numbers a line has before its last one.
fn numbers_before(line: usize) -> u8
    ensures { result ≡ numbers_before line }
{
    if line <= 1 { 0 } else { 4 }
}

// The line is no part of a plan. Lines are counted from 1; a line 0, with which no reading begins, tells no fault, as the definition has it.
fn faulty(r: Reading) -> Reading
    ensures { result ≡ at_fault r }
{
    Reading {
        fault: if r.line == 0 { None } else { Some(r.line) },
        ..r
    }
}

fn read_digit(r: Reading, digit: u8) -> Reading
    ensures { result ≡ digit_read r digit }
{
    match u16::try_from(u32::from(r.value) * 10 + u32::from(digit)) {
        Ok(value) => Reading {
            begun: true,
            value,
            ..r
        },
        Err(_) => faulty(r),
    }
}

// A space ends a number that is not the last of its line.
fn read_space(r: Reading) -> Reading
    ensures { result ≡ space_read r }
{
    if r.begun && r.numbers < numbers_before(r.line) {
        Reading {
            numbers: r.numbers + 1,
            begun: false,
            value: 0,
            cfu: r.cfb,
            cfb: r.cfnr,
            cfnr: r.busy,
            busy: r.value,
            ..r
        }
    } else {
        faulty(r)
    }
}

// The start panel behind the line that ends here.
fn start_after(r: Reading) -> u16
    ensures { result ≡ start_after r }
{
    if r.line <= 1 { r.value } else { r.start }
}

fn next_line(r: Reading) -> Reading
    ensures { result ≡ line_read r }
{
    Reading {
        line: next_number(r.line),
        start: start_after(r),
        numbers: 0,
        begun: false,
        value: 0,
        ..r
    }
}

// Has the line all its numbers?
fn whole_line(r: Reading) -> bool
    ensures { result ≡ whole_line r }
{
    r.begun && r.numbers == numbers_before(r.line)
}

// A newline ends a line that has all its numbers.
fn read_newline(r: Reading) -> Reading
    ensures { result ≡ newline_read r }
{
    if whole_line(r) {
        next_line(r)
    } else {
        faulty(r)
    }
}

// One byte; behind a fault nothing is read.
#[tactic(auto, unfolding(plantext::specs::Text::byte_read))]
fn read_byte(r: Reading, byte: u8) -> Reading
    ensures { result ≡ byte_read r byte }
{
    if r.fault.is_some() {
        return r;
    }
    match byte {
        b'0'..=b'9' => read_digit(r, byte - b'0'),
        b' ' => read_space(r),
        b'\n' => read_newline(r),
        _ => faulty(r),
    }
}

// A mark that does not fit a byte is kept as 255: every mark above 1 is refused alike.
fn mark_byte(mark: u16) -> u16
    ensures { result ≡ mark_byte mark }
{
    mark.min(255)
}

// The four numbers of the panel whose line was read.
fn put_panel(plan: &mut [u16], at: usize, r: Reading)
    requires { at + 4 ≤ length plan.old }
    ensures { plan.new ≡ wrote (packed r.cfu r.cfb r.cfnr r.busy r.value) at plan.old }
{
    let marks = mark_byte(r.busy) + mark_byte(r.value) * 256;
    plan[at..at + 4].copy_from_slice(&[r.cfu, r.cfb, r.cfnr, marks]);
}

// Does this byte end a panel's line?
fn ends_panel(r: Reading, byte: u8) -> bool
    ensures { result ≡ ends_panel r byte }
{
    r.fault.is_none() && byte == b'\n' && whole_line(r) && 2 <= r.line
}

// Stores the panel whose line this byte ends, if there is room for it.
#[tactic(auto, unfolding(plantext::specs::Text::stored))]
fn store_panel(plan: &mut [u16], r: Reading, byte: u8)
    ensures { plan.new ≡ stored r byte plan.old }
{
    if ends_panel(r, byte) && r.line <= plan.len() / 4 + 1 {
        put_panel(plan, (r.line - 2) * 4, r);
    }
}

// A piece of the text. Panels that the plan has no room for are read, and not stored.
#[tactic(auto, using(crate::proofs::Folds::midway_start, crate::proofs::Folds::midway_next, crate::proofs::Folds::midway_end))]
pub fn read_piece(r: Reading, plan: &mut [u16], bytes: &[u8]) -> Reading
    ensures value { result ≡ text_read r bytes.now }
    ensures plan_after { plan.new ≡ plan_after r bytes.now plan.old }
{
    let mut next = r;
    for &byte in bytes {
        store_panel(plan, next, byte);
        next = read_byte(next, byte);
    }
    next
}

// The end of the text.
#[tactic(auto, unfolding(plantext::specs::Text::text_read, plantext::specs::Text::plan_after))]
pub fn finish(r: Reading, plan: &mut [u16]) -> Reading
    ensures value { result ≡ text_read r (closing r) }
    ensures plan_after { plan.new ≡ plan_after r (closing r) plan.old }
{
    if r.begun || 0 < r.numbers || r.line <= 1 {
        store_panel(plan, r, b'\n');
        read_byte(r, b'\n')
    } else {
        r
    }
}
