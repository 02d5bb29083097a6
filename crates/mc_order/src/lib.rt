//! The one order of the entries of several logs.
#![tactic(auto)]

ghost use Rattle.std.specs.Prelude.{ℕ, ◌≡◌, ◌^◌, ◌<◌, ◌++◌, map, length, IfOk, OnOk, All};
ghost use Rattle.std.specs.List.Sorted.{IsPermutation, IsSorted};
ghost use Rattle.mc_order.specs.Keys.{IsOrdered, OwnOrder, Rise, StampsRise, key_cmp, keys_of, stamps_at};

pub mod laws;
#[cfg(test)]
mod tests;

use std::alloc::{AllocError, Global};

/// An entry of a log: its stamp, the number of the log, and the entry's index in the log.
///
/// Keys compare by stamp, then by log, then by index.
#[derive(Clone, Copy, PartialEq, Eq, PartialOrd, Ord, Debug)]
pub struct Key {
    pub stamp: u32,
    pub who: u32,
    pub index: u32,
}

/// The order of the entries of several logs, whose stamps rise: each entry once, by its stamp, then by its log. It
/// fails only for want of memory.
///
/// So each log's entries stand in their own order, and an entry with a greater stamp stands later.
pub fn order(alloc: Global, logs: &[Vec<u32>]) -> Result<Vec<Key>, AllocError>
    requires few { length logs.now < 2 ^ 32 }
    requires short { All (λ log. length log.items < 2 ^ 32) logs.now }
    requires rise { (who : ℕ) → Rise (stamps_at (map (λ log. log.items) logs.now) who) }
    ensures ordered { IfOk result (λ keys. IsOrdered (map (λ log. log.items) logs.now) keys.items) }
    ensures own { IfOk result (λ keys. OwnOrder (map (λ log. log.items) logs.now) keys.items) }
    ensures rise { IfOk result (λ keys. StampsRise keys.items) }
{
    let mut keys = Vec::new(alloc);
    for who in 0..logs.len() {
        add_log(&mut keys, who as u32, &logs[who])?;
    }
    sort_keys(&mut keys);
    Ok(keys)
}

/// Sorts keys by their stamps, then by their logs. It takes no memory.
///
/// A caller that gathers the keys of all entries itself has their one order then.
pub fn sort_keys(keys: &mut Vec<Key>)
    ensures permutation { IsPermutation keys.old.items keys.new.items }
    ensures sorted { IsSorted key_cmp keys.new.items }
{
    keys.sort_unstable();
}

// One log's entries come to the end.
fn add_log(keys: &mut Vec<Key>, who: u32, log: &Vec<u32>) -> Result<(), AllocError>
    requires { length log.now.items < 2 ^ 32 }
    ensures { OnOk result (keys.new.items ≡ keys.old.items ++ keys_of who 0 log.now.items) }
{
    for index in 0..log.len() {
        keys.push(Key {
            stamp: log[index],
            who,
            index: index as u32,
        })?;
    }
    Ok(())
}
