// The two scenes.

ghost use Rattle.std.specs.Prelude.{◌≡◌, IfOk};
ghost use Rattle.mc_scene.specs.Scenes.{scene_text};

use std::alloc::{AllocError, Global};

/// An example of a feature with a program.
#[derive(Clone, Copy, PartialEq, Eq, Debug)]
pub enum Scene {
    /// One who speaks with two others in turn, by an exchange that holds the other one.
    Pbx,
    /// A prepaid call that a voice interrupts until it is paid for.
    Prepaid,
}

const PBX: &[u8] = b"media 1\n\
    codec g711\n\
    dev alice g711\n\
    dev bob g711\n\
    dev carol g711\n\
    feat pbx\n\
    chan audio alice a pbx a\n\
    chan audio bob a pbx b\n\
    chan audio carol a pbx c\n\
    prog pbx ab ac\n\
    state ab\n\
    link a b\n\
    goal c hold\n\
    when told swap ac\n\
    state ac\n\
    link a c\n\
    goal b hold\n\
    when told swap ab\n\
    begin\n\
    set alice a open\n\
    set bob a hold\n\
    set carol a open\n\
    settle\n\
    tell pbx swap\n\
    settle\n\
    tell pbx swap\n\
    settle\n\
    set bob a close\n\
    settle\n";

const PREPAID: &[u8] = b"media 1\n\
    codec g711\n\
    codec g729\n\
    dev caller g711 g729\n\
    dev callee g729\n\
    dev voice g711\n\
    feat pc\n\
    chan audio caller a pc a\n\
    chan audio pc c callee a\n\
    chan audio pc v voice a\n\
    prog pc talk prompt\n\
    state talk\n\
    link a c\n\
    goal v close\n\
    when told out prompt\n\
    state prompt\n\
    link a v\n\
    goal c hold\n\
    when told paid talk\n\
    begin\n\
    set caller a open\n\
    set callee a hold\n\
    set voice a hold\n\
    settle\n\
    tell pc out\n\
    settle\n\
    tell pc paid\n\
    settle\n";

/// The text of a scene: its network, and a script with a settle after each of its steps.
pub fn scene_text(alloc: Global, scene: Scene) -> Result<Vec<u8>, AllocError>
    ensures { IfOk result (λ text. text.items ≡ scene_text scene) }
{
    Vec::from_slice(alloc, scene_bytes(scene))
}

fn scene_bytes(scene: Scene) -> &'static [u8]
    ensures { result.now ≡ scene_text scene }
{
    match scene {
        Scene::Pbx => PBX,
        Scene::Prepaid => PREPAID,
    }
}
