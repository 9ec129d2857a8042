// What ties a host to its archive. The name of this function carries the version of the layout that the other functions have:
// the header and the wrapper refer to it by that name, so one of another version does not link. A crate of its own, so that a
// new version proves nothing else again. host/README.md has what to change then.
#![tactic(auto)]

ghost use Rattle.std.specs.Prelude.{◌≡◌};
ghost use Rattle.whipsail_layout.specs.Format.{format};

// The format number of what a host keeps over a restart.
#[unsafe(no_mangle)]
pub extern "C" fn whipsail_layout_3() -> u32
    ensures { result ≡ format }
{
    3
}
