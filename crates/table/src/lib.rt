// When a table is sound: the first `len` records of an array by value, and the identifiers of its open requests as a column.
#![tactic(auto)]

ghost use Rattle.std.specs.Prelude.{◌≡◌, ◌&&◌, ◌++◌, ◌≤◌, take};
ghost use Rattle.ground.specs.Lists.{all};
ghost use Rattle.identifier.specs.Identifier.{distinct};
ghost use Rattle.call.specs.Soundness.{sound_call};
ghost use Rattle.timed.specs.Timed.{identifiers_of};
ghost use Rattle.remote.specs.Held.{timers_of};
ghost use Rattle.station.specs.Table.{requests_of};
ghost use Rattle.table.specs.Column.{apart_in};

use call::Call;
use remote::Pendings;

// No two open requests share an identifier. From the last place to the first each number sets a mark; only where a mark was set already is the number
// sought among those after it.
pub fn apart(held: &[u32; 68]) -> bool
    ensures { result ≡ apart_in held.now }
{
    let mut marks = [0u8; 256];
    for k in (0..68).rev() {
        let x = held[k];
        if x == 0 {
            continue;
        }
        let m = (x % 256) as usize;
        if marks[m] == 0 {
            marks[m] = 1;
            continue;
        }
        if held[k + 1..].contains(&x) {
            return false;
        }
    }
    true
}

// Each record is sound, "and no two open requests share" an identifier, the station's own beside those of the calls: the identifiers are
// copied into a column, which is tested at the end.
pub fn sound_table(calls: [Call; 64], len: usize, last: u64, p: Pendings) -> bool
    requires { len ≤ 64 }
    ensures { result ≡ (all (sound_call last) (take len calls) && distinct (requests_of (take len calls) ++ identifiers_of (timers_of p))) }
{
    let mut held = [0u32; 64];
    for i in 0..len {
        let c = calls[i];
        if !sound::sound_call(c, last) {
            return false;
        }
        held[i] = draw::held_by(c);
    }
    let column = draw::joined(&held, p);
    apart(&column)
}
