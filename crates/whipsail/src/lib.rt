// What a host links: the engine under a plain name, by the C calling convention. Every slice and event may be handed in.
// The run stands in `whipsail_runs`, fresh stations, an event's test, bytes and plans in `whipsail_aids`, for the same archive.
#![tactic(auto)]

ghost use Rattle.std.specs.Prelude.{◌≡◌};
ghost use Rattle.whipsail.specs.Lent.{reply_of, table_after};

use call::Call;
use change::Reply;
use pick::Input;

// One event on the records that the host lends, of any number: at most one of them is written.
#[unsafe(no_mangle)]
pub extern "C" fn whipsail_lent_step(table: &mut [Call], input: Input) -> Reply
    ensures { (result ≡ reply_of table.old input) × (table.new ≡ table_after table.old input) }
{
    let out = lent::looked(table, input);
    slice::settle(table, change::change_of(out));
    change::reply_of(out)
}
