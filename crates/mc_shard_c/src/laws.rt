//! Laws of what C hands over and is given, over the definitions alone.

ghost use Rattle.mc_shard_c.specs.Asking.{IsToldAgain, ToldAgain};
ghost use Rattle.mc_shard_c.specs.Laying.{OwnersFit};
ghost use Rattle.mc_shard_c.specs.Saving.{SavedIsLoaded};

/// A signal that was given out, and is handed in as it was, is the same one: its digest and all that it says.
pub fn told_again()
    ensures { ToldAgain }
{}

/// The numbers of a signal that was given out say one, so it can be handed in.
pub fn is_told_again()
    ensures { IsToldAgain }
{}

/// Where any boxes of channel ends make a shard of these boxes and places, those that are found make one: so numbers
/// that say no shard say none in any way.
pub fn owners_fit()
    ensures { OwnersFit }
{}

/// Bytes that were saved are loaded, and to the shard that was saved: a snapshot is read from the buffer that it was put
/// into, by the count that was told.
pub fn saved_is_loaded()
    ensures { SavedIsLoaded }
{}
