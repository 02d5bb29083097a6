//! A law of the wire form, over the definitions alone.

ghost use Rattle.mc_entry.specs.Wire.{OneForm};

/// No form of an entry begins another, so what was written is read again, whatever follows it.
pub fn one_form()
    ensures { OneForm }
{}
