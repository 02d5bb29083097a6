// The logs of a round, as one list of turns.

ghost use Rattle.std.specs.Prelude.{◌≡◌, ◌^◌, ◌<◌, ◌≤◌, ◌++◌, length, map, All, IfOk, OnOk};
ghost use Rattle.mc_order.specs.Keys.{keys_from, keys_of};
ghost use Rattle.mc_team.specs.Logs.{AreShort, AreTurnsOf, IsEntryOf, log_lists, log_stamps, logged_turn};

use mc_box::Turn;
use mc_order::{Key, sort_keys};
use mc_worker::Logged;
use std::alloc::{AllocError, Global};

/// The turns of these logs, in the order of their stamps, and of the boxes where stamps are the same. It fails only for
/// want of memory.
pub fn merge(alloc: Global, logs: &[Vec<Logged>]) -> Result<Vec<Turn>, AllocError>
    requires few { length logs.now ≤ 2 ^ 32 }
    requires short { AreShort (log_lists logs.now) }
    ensures { IfOk result (λ turns. AreTurnsOf (log_lists logs.now) turns.items) }
{
    let mut keys = gather(alloc, logs)?;
    sort_keys(&mut keys);
    turns_of(alloc, logs, &keys)
}

// The entries of all logs.
fn gather(alloc: Global, logs: &[Vec<Logged>]) -> Result<Vec<Key>, AllocError>
    requires few { length logs.now ≤ 2 ^ 32 }
    requires short { AreShort (log_lists logs.now) }
    ensures { IfOk result (λ keys. keys.items ≡ keys_from 0 (map log_stamps (log_lists logs.now))) }
{
    let mut keys = Vec::new(alloc);
    for who in 0..logs.len() {
        add_keys(&logs[who], who as u32, &mut keys)?;
    }
    Ok(keys)
}

// The entries of a box's log come to the end.
fn add_keys(log: &[Logged], who: u32, keys: &mut Vec<Key>) -> Result<(), AllocError>
    requires { length log.now < 2 ^ 32 }
    ensures { OnOk result (keys.new.items ≡ keys.old.items ++ keys_of who 0 (log_stamps log.now)) }
{
    for index in 0..log.len() {
        keys.push(key_of(&log[index], who, index as u32))?;
    }
    Ok(())
}

// The key of an entry.
fn key_of(logged: &Logged, who: u32, index: u32) -> Key
    ensures { result ≡ record { stamp = logged.now.stamp; who = who; index = index } }
{
    Key {
        stamp: logged.stamp,
        who,
        index,
    }
}

// The turns of these entries.
fn turns_of(alloc: Global, logs: &[Vec<Logged>], keys: &[Key]) -> Result<Vec<Turn>, AllocError>
    requires { All (IsEntryOf (log_lists logs.now)) keys.now }
    ensures { IfOk result (λ turns. turns.items ≡ map (logged_turn (log_lists logs.now)) keys.now) }
{
    let mut turns = Vec::with_capacity(alloc, keys.len())?;
    for key in keys {
        turns.push(logged_turn(logs, key))?;
    }
    Ok(turns)
}

// The turn of an entry.
fn logged_turn(logs: &[Vec<Logged>], key: &Key) -> Turn
    requires { IsEntryOf (log_lists logs.now) key.now }
    ensures { result ≡ logged_turn (log_lists logs.now) key.now }
{
    Turn {
        who: key.who,
        event: logs[key.who as usize][key.index as usize].event,
    }
}
