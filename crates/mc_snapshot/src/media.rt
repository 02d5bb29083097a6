// What a slot keeps of its far end, as bytes.

ghost use Rattle.std.specs.Prelude.{◌<◌, ◌^◌};
ghost use Rattle.mc_entry.specs.Wire.{FitsDescriptor, FitsSelector, codecs_wire, descriptor_wire, selector_wire};
ghost use Rattle.mc_snapshot.specs.Lengths.{address_long, codecs_long, descriptor_long, media_long, selector_long};
ghost use Rattle.mc_snapshot.specs.Slots.{FitsAddress, FitsMedia, address_wire, media_wire};

use crate::wire::{Get, Put};
use mc_box::{MediaAddress, SlotMedia};
use mc_entry::bytes::Bytes;
use mc_entry::reading::{read_codecs, read_descriptor, read_selector};
use mc_entry::writing::{put_codecs, put_descriptor, put_selector};
use mc_signal::{CodecList, Descriptor, Selector};
use std::alloc::{AllocError, Global};

impl Put for CodecList {
    ghost wire = { codecs_wire };

    ghost Fits = { λ list. Unit {0} };

    fn put(&self, out: &mut Vec<u8>) -> Result<(), AllocError> {
        put_codecs(out, self)
    }
}

impl Get for CodecList {
    ghost wire = { codecs_wire };

    ghost Fits = { λ list. Unit {0} };

    ghost long = { λ list more. codecs_long list more };

    fn get(_alloc: Global, bytes: &mut Bytes<'_>) -> Result<CodecList, AllocError> {
        Ok(read_codecs(bytes))
    }
}

fn fits2(n: u16)
    ensures { n < 2 ^ 16 }
{
    let _ = n;
}

fn fits4(n: u32)
    ensures { n < 2 ^ 32 }
{
    let _ = n;
}

// Each of its numbers fits its field, as its types say.
fn descriptor_fits(d: &Descriptor)
    ensures { FitsDescriptor d.now }
{
    fits4(d.origin);
    fits4(d.version);
    fits4(d.addr);
    fits2(d.port);
}

impl Put for Descriptor {
    ghost wire = { descriptor_wire };

    ghost Fits = { FitsDescriptor };

    fn put(&self, out: &mut Vec<u8>) -> Result<(), AllocError> {
        descriptor_fits(self);
        put_descriptor(out, self)
    }
}

impl Get for Descriptor {
    ghost wire = { descriptor_wire };

    ghost Fits = { FitsDescriptor };

    ghost long = { λ d more. descriptor_long d more };

    fn get(_alloc: Global, bytes: &mut Bytes<'_>) -> Result<Descriptor, AllocError> {
        Ok(read_descriptor(bytes))
    }
}

// The same of a selector.
fn selector_fits(s: &Selector)
    ensures { FitsSelector s.now }
{
    fits4(s.origin);
    fits4(s.version);
    fits4(s.addr);
    fits2(s.port);
}

impl Put for Selector {
    ghost wire = { selector_wire };

    ghost Fits = { FitsSelector };

    fn put(&self, out: &mut Vec<u8>) -> Result<(), AllocError> {
        selector_fits(self);
        put_selector(out, self)
    }
}

impl Get for Selector {
    ghost wire = { selector_wire };

    ghost Fits = { FitsSelector };

    ghost long = { λ s more. selector_long s more };

    fn get(_alloc: Global, bytes: &mut Bytes<'_>) -> Result<Selector, AllocError> {
        Ok(read_selector(bytes))
    }
}

impl Put for MediaAddress {
    ghost wire = { address_wire };

    ghost Fits = { FitsAddress };

    fn put(&self, out: &mut Vec<u8>) -> Result<(), AllocError> {
        self.addr.put(out)?;
        self.port.put(out)
    }
}

impl Get for MediaAddress {
    ghost wire = { address_wire };

    ghost Fits = { FitsAddress };

    ghost long = { λ address more. address_long address more };

    fn get(alloc: Global, bytes: &mut Bytes<'_>) -> Result<MediaAddress, AllocError> {
        let addr = u32::get(alloc, bytes)?;
        let port = u16::get(alloc, bytes)?;
        Ok(MediaAddress { addr, port })
    }
}

impl Put for SlotMedia {
    ghost wire = { media_wire };

    ghost Fits = { FitsMedia };

    fn put(&self, out: &mut Vec<u8>) -> Result<(), AllocError> {
        self.origin.put(out)?;
        self.version.put(out)?;
        self.hears.put(out)?;
        self.talks.put(out)?;
        self.address.put(out)
    }
}

// Its fields, in their order.
type MediaFields = (u32, (u32, (bool, (bool, Option<MediaAddress>))));

impl Get for SlotMedia {
    ghost wire = { media_wire };

    ghost Fits = { FitsMedia };

    ghost long = { λ media more. media_long media more };

    fn get(alloc: Global, bytes: &mut Bytes<'_>) -> Result<SlotMedia, AllocError> {
        let (origin, (version, (hears, (talks, address)))) = MediaFields::get(alloc, bytes)?;
        Ok(SlotMedia {
            origin,
            version,
            hears,
            talks,
            address,
        })
    }
}
