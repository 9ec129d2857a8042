// Groups of events from standard input, each on a board of its own.
ghost use Rattle.std.specs.Prelude.{◌≡◌, ◌≤◌, length};

use crate::show::{fresh, on, say};
use std::io::Read;

// A heading is a record of kind 255 with the length of a label and then the label, at most 22 bytes.
fn heading(rt: HostRuntime, bytes: &[u8]) -> bool
    requires { length bytes.now ≡ 24 }
{
    if bytes[0] != 255 {
        return false;
    }
    let n = bytes[1] as usize;
    if n <= 22 {
        say(rt, b"# ");
        say(rt, &bytes[2..2 + n]);
        say(rt, b"\n");
    }
    true
}

fn played(rt: HostRuntime, bytes: &[u8]) {
    let mut s = fresh();
    for record in bytes.chunks_exact(24) {
        if heading(rt, record) {
            s = fresh();
        } else {
            s = on(rt, s, wire::event_at(record, 0));
        }
    }
}

// Reads until the buffer is full, the input ends or a read fails: how many bytes stand at its start.
// Stays: each turn goes on by what its read gave, which no `for` counts.
fn read_full(rt: HostRuntime, bytes: &mut [u8]) -> usize
    ensures { result ≤ length bytes.new }
{
    let mut done = 0;
    while done < bytes.len() {
        match rt.stdin().read(&mut bytes[done..]) {
            Ok(n) if n > 0 => done += n,
            _ => break,
        }
    }
    done
}

pub fn from_input(rt: HostRuntime) {
    let mut bytes = [0u8; 65536];
    let n = read_full(rt, &mut bytes);
    played(rt, &bytes[..n]);
}
