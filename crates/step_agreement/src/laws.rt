ghost use Rattle.step_agreement.specs.Ends.{AgreesByLog};
ghost use Rattle.step_agreement.specs.Exists.{AgreesOrStops};
ghost use Rattle.step_agreement.specs.Falling.{SizesFallAlong};
ghost use Rattle.step_agreement.specs.OverMachines.{AgreesOverMachines};
ghost use Rattle.step_agreement.specs.Saving.{OnlySavedGoBack};

/// Laws of agreed steps. Where each step ends as a function of its bound says, the log tells the agreement of these; told
/// machines come to that of the run's model, and each is in its state before the step, changed by its kept ask alone, also
/// where the one that alone might return early is asked first. FMUs whose steps end well come to an agreement, or to a step
/// that one of them can't make. The sizes of one FMU's steps fall, whatever is answered. An FMU is put back only where two or
/// more might return early.
pub fn laws_of_agreed_steps()
    ensures by_log { AgreesByLog }
    ensures over_machines { AgreesOverMachines }
    ensures exists { AgreesOrStops }
    ensures sizes_fall { SizesFallAlong }
    ensures go_back { OnlySavedGoBack }
{}
