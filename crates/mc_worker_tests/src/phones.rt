// Phones with one slot, at one channel end each.

ghost use Rattle.std.specs.Prelude.{◌≡◌, ◌∷◌, ◌^◌, ◌<◌, ◌≤◌, [], IfOk, IfSome, false, IsTrue, length, map};
ghost use Rattle.mc_box.specs.BoxShapes.{box_shape, is_enabled_by};
ghost use Rattle.mc_box.specs.declared.event.Kind.{Kind};
ghost use Rattle.mc_signal.specs.Own.{address_of};
ghost use Rattle.mc_signal.specs.declared.Medium.{Medium};
ghost use Rattle.mc_port.specs.Ends.{in_ring, out_ring};
ghost use Rattle.mc_worker.specs.Ready.{IsReady};
ghost use Rattle.mc_worker.specs.declared.limit.TheConstants.{FIRST_STAMP_LIMIT};

use crate::rounds::{HOLDS, OPENS};
use mc_box::{Event, Kind, MediaBox, Setup, SlotSetup};
use mc_io::OpenGate;
use mc_port::{InPort, OutPort, pair};
use mc_signal::{CodecList, Medium};
use mc_worker::{Places, RoundEnd, Worker};
use std::alloc::{AllocError, Global};

/// A phone with one slot of audio, which is the initiator's where its number is 0, and whose descriptors begin with
/// this version.
pub fn phone(alloc: Global, number: u32, first_version: u32) -> Result<MediaBox, AllocError>
    requires { address_of number < 2 ^ 32 }
    ensures { IfOk result (λ made. box_shape made
        ≡ record { kind = Kind.Device; media = Medium.Audio ∷ []; programmed = false }) }
{
    let mut slots = Vec::new(alloc);
    slots.push(SlotSetup {
        origin: number,
        medium: Medium::Audio,
        initiator: number == 0,
        address: None,
    })?;
    let setup = Setup {
        kind: Kind::Device,
        number,
        codecs: CodecList::none(),
        sends: CodecList::none(),
        first_version,
        slots,
        program: None,
    };
    MediaBox::new(alloc, setup)
}

/// A phone at its channel end, with one command.
pub fn worker(
    alloc: Global,
    part: MediaBox,
    out: OutPort,
    taking: InPort,
    command: Event,
) -> Result<Worker, AllocError>
    requires shape { box_shape part ≡ record { kind = Kind.Device; media = Medium.Audio ∷ []; programmed = false } }
    requires command { IsTrue (is_enabled_by (box_shape part) command) }
    ensures ready { IfOk result (λ made. IsReady made) }
    ensures stamp { IfOk result (λ made. made.stamp ≡ 0) }
    ensures outs { IfOk result (λ made. made.outs.items ≡ out ∷ []) }
    ensures ins { IfOk result (λ made. made.ins.items ≡ taking ∷ []) }
{
    let mut ins = Vec::new(alloc);
    ins.push(taking)?;
    let mut outs = Vec::new(alloc);
    outs.push(out)?;
    let mut places = Vec::new(alloc);
    places.push((0, 0))?;
    let mut made = Worker::new(alloc, part, Places::new(places), ins, outs)?;
    made.add(command)?;
    Ok(made)
}

/// A round. Of its contract only that is said which another round asks for, since all that is said of a call is carried
/// through the proof of what stands after it.
pub fn round(phone: &mut Worker) -> RoundEnd
    requires ready { IsReady phone.old }
    requires stamp { phone.old.stamp ≤ FIRST_STAMP_LIMIT }
    ensures { IsReady phone.new }
{
    phone.round(&OpenGate, false)
}

/// Two phones whose channel ends are joined. The first one is to open, and the second one to hold.
pub fn phones(alloc: Global) -> Result<(Worker, Worker), AllocError>
    ensures ready { IfOk result (λ both. IsReady both.0 × IsReady both.1) }
    ensures stamps { IfOk result (λ both. (both.0.stamp ≡ 0) × (both.1.stamp ≡ 0)) }
    ensures ends { IfOk result (λ both. (length both.0.ins.items ≡ 1) × (length both.1.outs.items ≡ 1)) }
    ensures ring { IfOk result (λ both. map out_ring both.1.outs.items ≡ map in_ring both.0.ins.items) }
{
    let (to_bob, from_alice) = pair(alloc)?;
    let (to_alice, from_bob) = pair(alloc)?;
    let alice = phone(alloc, 0, 1)?;
    let alice = worker(alloc, alice, to_bob, from_bob, OPENS)?;
    let bob = phone(alloc, 1, 1)?;
    let bob = worker(alloc, bob, to_alice, from_alice, HOLDS)?;
    Ok((alice, bob))
}

/// A phone with one command, and the far ends of its rings, at which no phone is.
pub fn lone_phone(
    alloc: Global,
    first_version: u32,
    command: Event,
) -> Result<(Worker, OutPort, InPort), AllocError>
    requires { IsTrue (is_enabled_by (record { kind = Kind.Device; media = Medium.Audio ∷ []; programmed = false })
        command) }
    ensures ready { IfOk result (λ made. IsReady made.0) }
    ensures stamp { IfOk result (λ made. made.0.stamp ≡ 0) }
    ensures ins { IfOk result (λ made. length made.0.ins.items ≡ 1) }
{
    let part = phone(alloc, 1, first_version)?;
    let (out, far_in) = pair(alloc)?;
    let (far_out, taking) = pair(alloc)?;
    let made = worker(alloc, part, out, taking, command)?;
    Ok((made, far_out, far_in))
}
