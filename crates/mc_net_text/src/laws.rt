//! Laws of the texts of networks, over the definitions alone: each function's contract is the law's sentence.

ghost use Rattle.mc_net_text.specs.NetLaws.{NetsRead};

/// Each network that is read of a text that reads as a network is that network: it has its names, its first world with
/// its programs, and no batch of commands.
pub fn nets_read()
    ensures { NetsRead }
{}
