//! Laws of the signals' parts, over their definitions alone: each function's contract is the law's sentence.

ghost use Rattle.mc_signal.specs.Equality.{CodecsTellList, DescriptorEquality, SelectorEquality};

/// `==` on descriptors says whether they are one and the same value.
pub fn descriptor_equality()
    ensures { DescriptorEquality }
{}

/// `==` on selectors says whether they are one and the same value.
pub fn selector_equality()
    ensures { SelectorEquality }
{}

/// Two lists with the same codecs, in the same order, are one and the same value.
pub fn codecs_tell_list()
    ensures { CodecsTellList }
{}
