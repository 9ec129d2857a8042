// A second walk over the records that a host lends, where it is needed: `column` copies the open identifiers out.
#![tactic(auto)]

ghost use Rattle.std.specs.Prelude.{◌≡◌, ◌≤◌, length};
ghost use Rattle.draw.specs.Column.{column_of};

use call::Call;

// The identifiers of the open requests among the first n records, copied out: each plus 1, and 0 where none is open.
pub fn column(table: &[Call], n: usize) -> [u32; 64]
    requires { (n ≤ length table.now) × (n ≤ 64) }
    ensures { result ≡ column_of n table.now }
{
    let mut held = [0u32; 64];
    for i in 0..n {
        held[i] = draw::held_by(table[i]);
    }
    held
}
