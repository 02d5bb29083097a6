//! Laws of plans, over their definitions alone: each function's contract is the law's sentence.

ghost use Rattle.mc_plan.specs.PlanLaws.{LayoutsStaySound, PlansAreNumbered, PlansAreUnprogrammed, PlansGiveLayouts, PlansStaySound, ProgramsKeepLayouts};

/// Whatever network is laid out, its boxes are new, and the tunnels of its channels join each of their slots once,
/// with the numbers of the rules: so its first world is sound.
pub fn plans_are_numbered()
    ensures { PlansAreNumbered }
{}

/// Whatever network is laid out, no box of it has a program: a plan has no place for one.
pub fn plans_are_unprogrammed()
    ensures { PlansAreUnprogrammed }
{}

/// Whatever network is laid out, and whatever its boxes do by turns, each world that they reach is sound: each signal
/// at a front is lawful for its slot, and as long as one is under way some slot can take one.
pub fn plans_stay_sound()
    ensures { PlansStaySound }
{}

/// The first world of a plan is a layout, and still is one when boxes have got programs.
pub fn programs_keep_layouts()
    ensures plans { PlansGiveLayouts }
    ensures programs { ProgramsKeepLayouts }
{}

/// Whatever programs a layout has, and whatever its boxes do by turns, each world that they reach is sound.
pub fn layouts_stay_sound()
    ensures { LayoutsStaySound }
{}
