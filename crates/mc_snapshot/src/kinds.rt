// Values of few kinds, each by a number.

ghost use Rattle.std.specs.Prelude.{◌≡◌, ◌∷◌};
ghost use Rattle.mc_snapshot.specs.Kinds.{flag_number, goal_number, kind_number, medium_number, state_number};
ghost use Rattle.mc_snapshot.specs.Lengths.{byte_long};

use crate::wire::{Get, Put};
use mc_box::Kind;
use mc_entry::bytes::Bytes;
use mc_entry::writing::put;
use mc_signal::Medium;
use mc_slot::{Goal, State};
use std::alloc::{AllocError, Global};

fn flag_number(flag: bool) -> u8
    ensures { result ≡ flag_number flag }
{
    match flag {
        true => 1,
        false => 0,
    }
}

impl Put for bool {
    ghost wire = { λ one more. flag_number one ∷ more };

    ghost Fits = { λ one. Unit {0} };

    fn put(&self, out: &mut Vec<u8>) -> Result<(), AllocError> {
        put(out, &[flag_number(*self)])
    }
}

impl Get for bool {
    ghost wire = { λ one more. flag_number one ∷ more };

    ghost Fits = { λ one. Unit {0} };

    ghost long = { λ one more. byte_long (flag_number one) more };

    fn get(_alloc: Global, bytes: &mut Bytes<'_>) -> Result<bool, AllocError> {
        Ok(match bytes.byte() {
            1 => true,
            _ => false,
        })
    }
}

fn medium_number(medium: Medium) -> u8
    ensures { result ≡ medium_number medium }
{
    match medium {
        Medium::Audio => 0,
        Medium::Video => 1,
    }
}

impl Put for Medium {
    ghost wire = { λ one more. medium_number one ∷ more };

    ghost Fits = { λ one. Unit {0} };

    fn put(&self, out: &mut Vec<u8>) -> Result<(), AllocError> {
        put(out, &[medium_number(*self)])
    }
}

impl Get for Medium {
    ghost wire = { λ one more. medium_number one ∷ more };

    ghost Fits = { λ one. Unit {0} };

    ghost long = { λ one more. byte_long (medium_number one) more };

    fn get(_alloc: Global, bytes: &mut Bytes<'_>) -> Result<Medium, AllocError> {
        Ok(match bytes.byte() {
            0 => Medium::Audio,
            _ => Medium::Video,
        })
    }
}

fn kind_number(kind: Kind) -> u8
    ensures { result ≡ kind_number kind }
{
    match kind {
        Kind::Device => 0,
        Kind::Feature => 1,
    }
}

impl Put for Kind {
    ghost wire = { λ one more. kind_number one ∷ more };

    ghost Fits = { λ one. Unit {0} };

    fn put(&self, out: &mut Vec<u8>) -> Result<(), AllocError> {
        put(out, &[kind_number(*self)])
    }
}

impl Get for Kind {
    ghost wire = { λ one more. kind_number one ∷ more };

    ghost Fits = { λ one. Unit {0} };

    ghost long = { λ one more. byte_long (kind_number one) more };

    fn get(_alloc: Global, bytes: &mut Bytes<'_>) -> Result<Kind, AllocError> {
        Ok(match bytes.byte() {
            0 => Kind::Device,
            _ => Kind::Feature,
        })
    }
}

fn goal_number(goal: Goal) -> u8
    ensures { result ≡ goal_number goal }
{
    match goal {
        Goal::Open => 0,
        Goal::Close => 1,
        Goal::Hold => 2,
    }
}

impl Put for Goal {
    ghost wire = { λ one more. goal_number one ∷ more };

    ghost Fits = { λ one. Unit {0} };

    fn put(&self, out: &mut Vec<u8>) -> Result<(), AllocError> {
        put(out, &[goal_number(*self)])
    }
}

impl Get for Goal {
    ghost wire = { λ one more. goal_number one ∷ more };

    ghost Fits = { λ one. Unit {0} };

    ghost long = { λ one more. byte_long (goal_number one) more };

    fn get(_alloc: Global, bytes: &mut Bytes<'_>) -> Result<Goal, AllocError> {
        Ok(match bytes.byte() {
            0 => Goal::Open,
            1 => Goal::Close,
            _ => Goal::Hold,
        })
    }
}

fn state_number(state: State) -> u8
    ensures { result ≡ state_number state }
{
    match state {
        State::Closed => 0,
        State::Opening => 1,
        State::Opened => 2,
        State::Flowing => 3,
        State::Closing => 4,
    }
}

impl Put for State {
    ghost wire = { λ one more. state_number one ∷ more };

    ghost Fits = { λ one. Unit {0} };

    fn put(&self, out: &mut Vec<u8>) -> Result<(), AllocError> {
        put(out, &[state_number(*self)])
    }
}

impl Get for State {
    ghost wire = { λ one more. state_number one ∷ more };

    ghost Fits = { λ one. Unit {0} };

    ghost long = { λ one more. byte_long (state_number one) more };

    fn get(_alloc: Global, bytes: &mut Bytes<'_>) -> Result<State, AllocError> {
        Ok(match bytes.byte() {
            0 => State::Closed,
            1 => State::Opening,
            2 => State::Opened,
            3 => State::Flowing,
            _ => State::Closing,
        })
    }
}
