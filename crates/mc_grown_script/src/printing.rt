// What is printed of a settle, and of a stop.

ghost use Rattle.std.specs.Prelude.{◌≡◌, ◌++◌, IsTrue, OnOk};
ghost use Rattle.mc_stages.specs.Plans.{NamesEnough};
ghost use Rattle.mc_grown_script.specs.Printed.{network_text, stop_word};
ghost use Rattle.mc_stages.specs.StageLaws.{PathsHold};
ghost use Rattle.mc_model.specs.Settles.{is_quiet};

use crate::stop::GrownStop;
use mc_grow::Grown;
use mc_path::paths;
use mc_table::put_settle;
use mc_text::Names;
use std::alloc::{AllocError, Global};

/// Appends the lines of a settle, by its number: each path of the network, and who hears what on it.
pub fn put_network(
    alloc: Global,
    names: &Names,
    number: u32,
    network: &Grown,
    out: &mut Vec<u8>,
) -> Result<(), AllocError>
    requires named { NamesEnough names.now network.now.world }
    requires quiet { IsTrue (is_quiet network.now.world) }
    requires holds { PathsHold network.now }
    ensures { OnOk result (out.new.items ≡ out.old.items ++ network_text names.now number network.now) }
{
    let world = network.world();
    world.keeps();
    let views = network.present(paths(alloc, world)?);
    put_settle(alloc, names, number, &views, out)
}

/// The word for why a script stopped.
pub fn stop_word(stop: GrownStop) -> &'static [u8]
    ensures { result.now ≡ stop_word stop }
{
    match stop {
        GrownStop::Settle(stop) => mc_settle_text::stop_word(stop),
        GrownStop::Cut(_) => b"cut",
    }
}
