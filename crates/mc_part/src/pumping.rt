// What crosses, between the engine of a part and the rings of its ports.

ghost use Rattle.std.specs.Prelude.{◌≡◌, ◌<◌, length, IfErr};
ghost use Rattle.mc_part.specs.Parts.{IsWithin, LeadsAway, Runs, no_retries};
ghost use Rattle.mc_part.specs.Ports.{IsFirst};
ghost use Rattle.mc_part.specs.Running.{MeetsStray, StraysAs};
ghost use Rattle.mc_world.specs.declared.network.engine.PutFault.{PutFault};

use crate::limit::STAMP_LIMIT;
use crate::part::Part;
use crate::port::{into_lane, out_lane};
use crate::stop::PartStop;
use mc_port::Stamped;
use mc_port::limit::RING_LIMIT;
use mc_world::PutFault;

/// Takes in what rings give, of each at most as many items as it has places. Whether something came.
pub fn pump_all_in(part: &mut Part) -> Result<bool, PartStop>
    requires away { LeadsAway part.old }
    requires within { IsWithin part.old }
    ensures run { Runs part.old part.new no_retries }
    ensures within { IsWithin part.new }
    ensures log { part.new.log.items ≡ part.old.log.items }
    ensures stops { IfErr result (StraysAs part.new) }
{
    let mut found = false;
    for channel in 0..part.ports.len() {
        let came = pump_in_at(part, channel)?;
        found = found || came;
    }
    Ok(found)
}

// The same of one ring.
fn pump_in_at(part: &mut Part, channel: usize) -> Result<bool, PartStop>
    requires here { channel < length part.old.ports.items }
    requires away { LeadsAway part.old }
    requires within { IsWithin part.old }
    ensures run { Runs part.old part.new no_retries }
    ensures within { IsWithin part.new }
    ensures log { part.new.log.items ≡ part.old.log.items }
    ensures stops { IfErr result (StraysAs part.new) }
{
    let mut found = false;
    for _ in 0..RING_LIMIT {
        if !take_one(part, channel)? {
            return Ok(found);
        }
        found = true;
    }
    Ok(found)
}

// One item, where there is one.
fn take_one(part: &mut Part, channel: usize) -> Result<bool, PartStop>
    requires here { channel < length part.old.ports.items }
    requires away { LeadsAway part.old }
    requires within { IsWithin part.old }
    ensures run { Runs part.old part.new no_retries }
    ensures within { IsWithin part.new }
    ensures log { part.new.log.items ≡ part.old.log.items }
    ensures stops { IfErr result (StraysAs part.new) }
{
    let Some(item) = part.ports[channel].look() else {
        return Ok(false);
    };
    come(part, channel, item)?;
    Ok(true)
}

// An item that is known comes in.
fn come(part: &mut Part, channel: usize, item: Stamped) -> Result<(), PartStop>
    requires here { channel < length part.old.ports.items }
    requires first { IsFirst part.old.ports.items channel item }
    requires away { LeadsAway part.old }
    requires within { IsWithin part.old }
    ensures run { Runs part.old part.new no_retries }
    ensures within { IsWithin part.new }
    ensures log { part.new.log.items ≡ part.old.log.items }
    ensures stops { IfErr result (StraysAs part.new) }
{
    if item.stamp > STAMP_LIMIT {
        return Err(PartStop::Stray(channel));
    }
    let port = &part.ports[channel];
    let lane = into_lane(channel, port.starts_here);
    let slot = port.slot(item.tunnel);
    if let Err(fault) = part.engine.put_in(lane, item.tunnel, slot, item.signal) {
        return Err(refused_item(part, channel, fault));
    }
    part.ports[channel].take(item);
    part.heard = part.heard.max(item.stamp);
    Ok(())
}

// Why an item isn't put in.
fn refused_item(part: &Part, channel: usize, fault: PutFault) -> PartStop
    requires stray { fault ≡ PutFault.Stray → MeetsStray part.now channel }
    ensures { StraysAs part.now result }
{
    match fault {
        PutFault::NoMemory(e) => PartStop::NoMemory(e),
        PutFault::Stray => PartStop::Stray(channel),
    }
}

/// Gives what waits at place holders to the rings, while these have places. Whether something went.
pub fn pump_all_out(part: &mut Part) -> bool
    requires away { LeadsAway part.old }
    requires within { IsWithin part.old }
    ensures run { Runs part.old part.new no_retries }
    ensures within { IsWithin part.new }
    ensures log { part.new.log.items ≡ part.old.log.items }
{
    let mut found = false;
    for channel in 0..part.ports.len() {
        let went = pump_out_at(part, channel);
        found = found || went;
    }
    found
}

// The same of one ring.
fn pump_out_at(part: &mut Part, channel: usize) -> bool
    requires here { channel < length part.old.ports.items }
    requires away { LeadsAway part.old }
    requires within { IsWithin part.old }
    ensures run { Runs part.old part.new no_retries }
    ensures within { IsWithin part.new }
    ensures log { part.new.log.items ≡ part.old.log.items }
{
    let mut found = false;
    for _ in 0..RING_LIMIT {
        if !give_one(part, channel) {
            return found;
        }
        found = true;
    }
    found
}

// One signal, where one waits and there is a place.
fn give_one(part: &mut Part, channel: usize) -> bool
    requires here { channel < length part.old.ports.items }
    requires away { LeadsAway part.old }
    requires within { IsWithin part.old }
    ensures run { Runs part.old part.new no_retries }
    ensures within { IsWithin part.new }
    ensures log { part.new.log.items ≡ part.old.log.items }
{
    let port = &part.ports[channel];
    let Some(out) = part.engine.first_out(port.holder) else {
        return false;
    };
    if out.lane != out_lane(channel, port.starts_here) {
        return false;
    }
    let item = Stamped {
        stamp: part.stamp,
        tunnel: out.tunnel,
        signal: out.signal,
    };
    if !part.ports[channel].give(item) {
        return false;
    }
    part.engine.pop_out(&out);
    true
}
