// The commands of a stage.

ghost use Rattle.std.specs.Prelude.{◌↔◌, IsTrue};
ghost use Rattle.mc_growth.specs.Outs.{SetNoneOut};
ghost use Rattle.mc_stages.specs.Plans.{MayCommand};

use mc_box::Turn;
use mc_grow::Grown;
use mc_seq::fits;

/// Whether a batch may be settled, the network allows each command, and none is a Set on a slot
/// that is out.
pub fn may_command(network: &Grown, batch: &[Turn]) -> bool
    ensures { IsTrue result ↔ MayCommand network.now batch.now }
{
    fits(network.world(), batch) && sets_none_out(network, batch)
}

// Whether none of these turns is a Set on a slot that is out.
fn sets_none_out(network: &Grown, batch: &[Turn]) -> bool
    ensures { IsTrue result ↔ SetNoneOut network.now.world network.now.out batch.now }
{
    for turn in batch {
        if network.sets_out(turn.who, &turn.event) {
            return false;
        }
    }
    true
}
