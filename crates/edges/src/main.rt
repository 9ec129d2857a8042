// The edges of the page and the readings that a line can show, run by program.
//
// The groups of standard input are those of the file events.txt beside src/: for each a record of kind 255 with its label, and
// then its events as host/model's `events encode` writes them (`events decode` reads them back). Their lines in the file stdout are
// those that host/model's `modelrun` prints for the events of each group alone; those of `records`, `tables` and `stations` are the lines of
// that model's `step` on the same records and stations.
#![tactic(auto)]

mod events;
mod groups;
mod records;
mod show;
mod stations;
mod tables;

fn main(rt: HostRuntime) {
    groups::from_input(rt);
    records::all_used(rt);
    records::wrapped(rt);
    tables::lengths(rt);
    tables::limits(rt);
    tables::short_form(rt);
    tables::zeros(rt);
    tables::fresh_codes(rt);
    tables::damaged_outgoing(rt);
    tables::damaged_incoming(rt);
    tables::waiting_ones(rt);
    tables::sound(rt);
    stations::marks(rt);
    stations::pending_ones(rt);
    stations::shared(rt);
}
