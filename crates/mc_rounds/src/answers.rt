// What a settle answers at its end.

ghost use Rattle.std.specs.Prelude.{◌≡◌};
ghost use Rattle.mc_model.specs.Worlds.{place};
ghost use Rattle.mc_divided.specs.Networks.{IsDividedNetwork, network_state};
ghost use Rattle.mc_rounds.specs.Answers.{Answered, TellsSlot};

use mc_box::Turn;
use mc_divided::DividedNetwork;
use mc_seq::{SettleFault, SettleStop, Stopped, StoppedBox};

/// The network with the turns of its settle, or why it stopped, with the turns until then.
pub fn answer(
    network: DividedNetwork,
    turns: Vec<Turn>,
    ending: Option<SettleStop>,
) -> Result<(DividedNetwork, Vec<Turn>), SettleFault>
    requires { IsDividedNetwork network }
    ensures { Answered network turns ending result }
{
    match ending {
        None => Ok((network, turns)),
        Some(SettleStop::Ring(at)) => Err(SettleFault::Ring(stop_at(&network, turns, at))),
        Some(SettleStop::Restless(at)) => Err(SettleFault::Restless(StoppedBox { at, turns })),
        Some(SettleStop::VersionEnd(at)) => Err(SettleFault::VersionEnd(stop_at(
            &network, turns, at,
        ))),
    }
}

// The turns of a settle that stops at a slot.
fn stop_at(network: &DividedNetwork, turns: Vec<Turn>, at: u32) -> Stopped
    requires { IsDividedNetwork network.now }
    ensures { TellsSlot (network_state network.now).world turns.items at result }
{
    let place = network.frame.place(at);
    Stopped { at, place, turns }
}
