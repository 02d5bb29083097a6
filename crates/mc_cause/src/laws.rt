//! Laws of causes, over the definitions alone: each function's contract is the law's sentence.

ghost use Rattle.mc_cause.specs.CauseLaws.{BeginsTakeNone, CausesBegin, NewNoneCloses, NoneWhereNever, OthersKeepCauses};
ghost use Rattle.mc_cause.specs.Worked.{WorkedCauses};

/// A cause that is a turn is a Set of the goal close, a Shift, or the Take of an open by an end under close.
pub fn causes_begin()
    ensures { CausesBegin }
{}

/// Such a turn takes no close.
pub fn begins_take_none()
    ensures { BeginsTakeNone }
{}

/// A slot has no cause exactly where it never became closed.
pub fn none_where_never()
    ensures { NoneWhereNever }
{}

/// A turn that takes neither a close nor a closeack, and doesn't close of its own accord, changes no cause.
pub fn others_keep_causes()
    ensures { OthersKeepCauses }
{}

/// No slot of a world of new boxes waits for a closeack, so `Causes::new` takes each first world.
pub fn new_none_closes()
    ensures { NewNoneCloses }
{}

/// The definitions give worked exchanges the causes that a telephony engineer expects.
pub fn worked_causes()
    ensures { WorkedCauses }
{}
