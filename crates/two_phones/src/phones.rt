// Two phones, and rings between them.

ghost use Rattle.std.specs.Prelude.{◌≡◌, ◌^◌, ◌<◌, IfOk};
ghost use Rattle.mc_box.specs.BoxShapes.{box_shape};
ghost use Rattle.mc_signal.specs.Own.{address_of};
ghost use Rattle.two_phones.specs.Phones.{phone_shape, IsPhone};

use mc_box::{Kind, MediaBox, Setup, SlotSetup};
use mc_port::{InPort, OutPort, pair};
use mc_signal::{CodecList, Medium};
use mc_worker::{Places, Worker};
use std::alloc::{AllocError, Global};

// A phone with one slot of audio, which is the initiator's where its number is 0.
fn phone(alloc: Global, number: u32) -> Result<MediaBox, AllocError>
    requires { address_of number < 2 ^ 32 }
    ensures { IfOk result (λ made. box_shape made ≡ phone_shape) }
{
    let mut slots = Vec::new(alloc);
    slots.push(SlotSetup {
        origin: number,
        medium: Medium::Audio,
        initiator: number == 0,
        address: None,
    })?;
    let setup = Setup {
        kind: Kind::Device,
        number,
        codecs: CodecList::none(),
        sends: CodecList::none(),
        first_version: 1,
        slots,
        program: None,
    };
    MediaBox::new(alloc, setup)
}

// A phone at its channel end.
fn worker(alloc: Global, number: u32, out: OutPort, taking: InPort) -> Result<Worker, AllocError>
    requires { address_of number < 2 ^ 32 }
    ensures { IfOk result IsPhone }
{
    let part = phone(alloc, number)?;
    let mut ins = Vec::new(alloc);
    ins.push(taking)?;
    let mut outs = Vec::new(alloc);
    outs.push(out)?;
    let mut places = Vec::new(alloc);
    places.push((0, 0))?;
    Worker::new(alloc, part, Places::new(places), ins, outs)
}

/// Two phones whose channel ends are joined.
pub fn phones(alloc: Global) -> Result<(Worker, Worker), AllocError>
    ensures { IfOk result (λ both. IsPhone both.0 × IsPhone both.1) }
{
    let (to_bob, from_alice) = pair(alloc)?;
    let (to_alice, from_bob) = pair(alloc)?;
    let alice = worker(alloc, 0, to_bob, from_bob)?;
    let bob = worker(alloc, 1, to_alice, from_alice)?;
    Ok((alice, bob))
}
