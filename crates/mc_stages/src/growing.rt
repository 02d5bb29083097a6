// The joins and cuts before a settle.

ghost use Rattle.std.specs.Prelude.{◌≡◌, ◌↔◌, map, IfErr, IfOk, IsTrue};
ghost use Rattle.mc_growth.specs.Growths.{MayGrow, MayGrowAll, grown_by, grown_by_all, with_cut};
ghost use Rattle.mc_growth.specs.Outs.{MayCut, least_used};
ghost use Rattle.mc_stages.specs.Growing.{CutsShort, IsRefused, TellsUsed};
ghost use Rattle.mc_stages.specs.Plans.{MayAsk, MayAskAll, growth_of};
ghost use Rattle.mc_stages.specs.declared.growing.GrowthFault.TheVariants.{NoMemory};
ghost use Rattle.mc_model.specs.Worlds.{place};

use crate::plan::ChannelChange;
use mc_grow::{Grown, InUse};
use std::alloc::{AllocError, Global};

/// A slot that is in use, by its number, with its box and its local number there.
#[derive(Clone, Copy, Debug, PartialEq, Eq)]
pub struct UsedSlot {
    pub at: u32,
    pub place: (u32, u8),
}

/// Why a network doesn't grow.
#[derive(Clone, Copy, Debug, PartialEq, Eq, Drop)]
pub enum GrowthFault {
    /// A channel was to be cut while this slot of it, the least, is in use.
    InUse(UsedSlot),
    NoMemory(AllocError),
}

impl From<AllocError> for GrowthFault {
    ghost from_gives = { λ e fault. fault ≡ NoMemory e };

    fn from(e: AllocError) -> Self {
        GrowthFault::NoMemory(e)
    }
}

/// Makes joins and cuts, in order. At a cut of a channel that is in use it ends, and the network is gone.
pub fn grow_all(
    alloc: Global,
    network: Grown,
    growths: &[ChannelChange],
) -> Result<Grown, GrowthFault>
    requires { MayAskAll network (map growth_of growths.now) }
    ensures grown { IfOk result (λ next. next ≡ grown_by_all network (map growth_of growths.now)) }
    ensures may { IfOk result (λ next. MayGrowAll network (map growth_of growths.now)) }
    ensures refused { IfErr result (CutsShort network (map growth_of growths.now)) }
{
    let mut network = network;
    for growth in growths {
        match grow(alloc, network, *growth) {
            Ok(next) => network = next,
            Err(fault) => return Err(fault),
        }
    }
    Ok(network)
}

/// Whether a join or a cut may be asked for, as `grow` asks. Whether a slot of the channel that is to be cut is in use
/// isn't seen here.
pub fn may_ask(network: &Grown, growth: ChannelChange) -> bool
    ensures { IsTrue result ↔ MayAsk network.now (growth_of growth) }
{
    match growth {
        ChannelChange::Join { from, to, .. } => network.may_join(from, to),
        ChannelChange::Cut { channel } => network.may_cut(channel),
    }
}

/// Makes one join or cut. At a cut of a channel that is in use the network is gone.
pub fn grow(alloc: Global, network: Grown, growth: ChannelChange) -> Result<Grown, GrowthFault>
    requires { MayAsk network (growth_of growth) }
    ensures grown { IfOk result (λ next. next ≡ grown_by network (growth_of growth)) }
    ensures may { IfOk result (λ next. MayGrow network (growth_of growth)) }
    ensures refused { IfErr result (IsRefused network (growth_of growth)) }
{
    match growth {
        ChannelChange::Join { medium, from, to } => Ok(network.join(alloc, medium, from, to)?),
        ChannelChange::Cut { channel } => cut(network, channel),
    }
}

// Cuts a channel.
fn cut(network: Grown, channel: u32) -> Result<Grown, GrowthFault>
    requires { MayCut network.world network.out channel }
    ensures cut { IfOk result (λ next. next ≡ with_cut network channel) }
    ensures free { IfOk result (λ next. least_used network.world channel ≡ None) }
    ensures refused { IfErr result (TellsUsed network.world (least_used network.world channel)) }
{
    let mut network = network;
    match network.cut(channel) {
        Ok(()) => Ok(network),
        Err(InUse { slot }) => {
            let place = network.world().place(slot);
            Err(GrowthFault::InUse(UsedSlot { at: slot, place }))
        }
    }
}
