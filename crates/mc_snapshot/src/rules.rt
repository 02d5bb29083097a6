// The transitions and states of a program as bytes.

ghost use Rattle.mc_snapshot.specs.Lengths.{guard_long, rule_long, state_long};
ghost use Rattle.mc_snapshot.specs.Rules.{FitsGuard, FitsRule, FitsState, guard_wire, rule_wire, state_wire};

use crate::lists::{get_list, put_list};
use crate::wire::{Get, Put};
use mc_entry::bytes::Bytes;
use mc_rule::{Guard, ProgState, Rule};
use mc_slot::State;
use std::alloc::{AllocError, Global};

impl Put for Guard {
    ghost wire = { guard_wire };

    ghost Fits = { FitsGuard };

    fn put(&self, out: &mut Vec<u8>) -> Result<(), AllocError> {
        match self {
            Guard::SlotIs(local, state) => (0u8, (*local, *state)).put(out),
            Guard::Told(word) => (1u8, (*word, 0u8)).put(out),
        }
    }
}

impl Get for Guard {
    ghost wire = { guard_wire };

    ghost Fits = { FitsGuard };

    ghost long = { λ guard more. guard_long guard more };

    fn get(alloc: Global, bytes: &mut Bytes<'_>) -> Result<Guard, AllocError> {
        let kind = u8::get(alloc, bytes)?;
        let first = u8::get(alloc, bytes)?;
        if kind == 0 {
            Ok(Guard::SlotIs(first, State::get(alloc, bytes)?))
        } else {
            let _unused = u8::get(alloc, bytes)?;
            Ok(Guard::Told(first))
        }
    }
}

impl Put for Rule {
    ghost wire = { rule_wire };

    ghost Fits = { FitsRule };

    fn put(&self, out: &mut Vec<u8>) -> Result<(), AllocError> {
        self.guard.put(out)?;
        self.target.put(out)
    }
}

impl Get for Rule {
    ghost wire = { rule_wire };

    ghost Fits = { FitsRule };

    ghost long = { λ rule more. rule_long rule more };

    fn get(alloc: Global, bytes: &mut Bytes<'_>) -> Result<Rule, AllocError> {
        let guard = Guard::get(alloc, bytes)?;
        let target = u32::get(alloc, bytes)?;
        Ok(Rule { guard, target })
    }
}

impl Put for ProgState {
    ghost wire = { state_wire };

    ghost Fits = { FitsState };

    fn put(&self, out: &mut Vec<u8>) -> Result<(), AllocError> {
        put_list(&self.goals, out)?;
        put_list(&self.rules, out)
    }
}

impl Get for ProgState {
    ghost wire = { state_wire };

    ghost Fits = { FitsState };

    ghost long = { λ state more. state_long state more };

    fn get(alloc: Global, bytes: &mut Bytes<'_>) -> Result<ProgState, AllocError> {
        let goals = get_list(alloc, bytes)?;
        let rules = get_list(alloc, bytes)?;
        Ok(ProgState { goals, rules })
    }
}
