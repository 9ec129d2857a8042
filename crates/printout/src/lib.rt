// The panel printout: the text of a line, written into a lent buffer.
// Stays: printing without `fmt`; std ensures nothing of the bytes that it writes.
#![tactic(auto)]

ghost use Rattle.std.specs.Prelude.{◌++◌, ◌+◌, ◌≤◌, length};
ghost use Rattle.digits.specs.Digits.{decimal, space, newline};
ghost use Rattle.digits.specs.Written.{Written};
ghost use Rattle.digits.specs.Text.{HasRoom, Wrote};
ghost use Rattle.printout.specs.Line.{column, leg_text, letter_with_leg, messages, line, cut_line};
ghost use Rattle.notice.specs.Notice.{no_notice, no_number};
ghost use Rattle.call.specs.Messages.{no_identifier, no_counter};
ghost use Rattle.station.specs.Station.{no_call};

use call::{Message, Sent};
use digits::Text;
use station::Answer;

// A column with the space before it: its value, or a dash for none.
// Stays: a number for none; what is none in each column is the C interface's (`Answer`).
fn write_column(text: &mut Text, none: u64, n: u64)
    requires { HasRoom 21 text.old }
    ensures { Wrote 21 (space ++ column none n) text.old text.new }
{
    text.put(b' ');
    if n == none {
        text.put(b'-');
    } else {
        text.decimal(n);
    }
}

// Position and answer number.
fn write_start(text: &mut Text, position: u64, code: u8)
    requires { HasRoom 41 text.old }
    ensures { Wrote 24 (decimal position ++ space ++ decimal code) text.old text.new }
{
    text.decimal(position);
    text.put(b' ');
    text.decimal(code as u64);
}

// Call, notice and number.
#[tactic(auto, using(crate::proofs::Pieces::column_8, crate::proofs::Pieces::column_16))]
fn write_shown(text: &mut Text, call: u8, notice: u8, number: u16)
    requires { HasRoom 29 text.old }
    ensures { Wrote 14 (space ++ column no_call call ++ (space ++ column no_notice notice) ++ (space ++ column no_number number)) text.old text.new }
{
    write_column(text, 255, call as u64);
    write_column(text, 255, notice as u64);
    write_column(text, 0, number as u64);
}

// A leg; 0 is none.
// Stays: 0 for no leg and for no letter; a message lies in `Answer`, which C reads.
fn write_leg(text: &mut Text, leg: u8)
    requires { HasRoom 20 text.old }
    ensures { Wrote 3 (leg_text leg) text.old text.new }
{
    if leg != 0 {
        text.decimal(leg as u64);
    }
}

// A message's letter with its leg; a letter of 0 is no message.
fn write_message(text: &mut Text, m: Message)
    requires { HasRoom 21 text.old }
    ensures { Wrote 4 (letter_with_leg m) text.old text.new }
{
    if m.letter != 0 {
        text.put(m.letter);
        write_leg(text, m.leg);
    }
}

// The messages, or a dash for none.
fn write_messages(text: &mut Text, sent: Sent)
    requires { HasRoom 29 text.old }
    ensures { Wrote 12 (messages sent) text.old text.new }
{
    if sent.first.letter == 0 {
        text.put(b'-');
    } else {
        write_message(text, sent.first);
        write_message(text, sent.second);
        write_message(text, sent.third);
    }
}

// Identifier, counter and messages, to the end of the line.
#[tactic(auto, using(crate::proofs::Pieces::column_8, crate::proofs::Pieces::column_32))]
fn write_end(text: &mut Text, identifier: u32, counter: u8, sent: Sent)
    requires { HasRoom 45 text.old }
    ensures { Wrote 29 (space ++ column no_identifier identifier ++ (space ++ column no_counter counter) ++ space ++ messages sent ++ newline) text.old text.new }
{
    write_column(text, 65536, identifier as u64);
    write_column(text, 0, counter as u64);
    text.put(b' ');
    write_messages(text, sent);
    text.put(b'\n');
}

// The line of an answer at its position: 67 bytes at most. It asks for room for 20 digits at each number.
// Stays: buffer and place apart here and in `write_cut`; docs/PROMISES.md names both.
pub fn write_line(out: &mut [u8], at: usize, position: u64, a: Answer) -> usize
    requires { at + 96 ≤ length out.old }
    ensures written { Written (line position a) at out.old out.new result }
    ensures upper_bound { result ≤ at + 67 }
{
    let mut text = Text { out, at };
    write_start(&mut text, position, a.code);
    write_shown(&mut text, a.call, a.notice, a.number);
    write_end(&mut text, a.identifier, a.counter, a.sent);
    text.at
}

// The line of a cut last record.
pub fn write_cut(out: &mut [u8], at: usize, count: usize) -> usize
    requires { at + 25 ≤ length out.old }
    ensures { Written (cut_line count) at out.old out.new result }
{
    let mut cut = Text { out, at };
    cut.put_bytes(b"cut ");
    cut.decimal(count as u64);
    cut.put(b'\n');
    cut.at
}
