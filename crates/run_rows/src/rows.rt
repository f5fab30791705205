ghost use Rattle.run_rows.specs.Alarmed.{alarmed_instants, alarmed_run};
ghost use Rattle.run_rows.specs.Calls.{calls_instants, calls_run};
ghost use Rattle.run_rows.specs.CounterGain.{counter_gain_run, with_events, without_events};
ghost use Rattle.run_rows.specs.Counted.{counted_instants, counted_run};
ghost use Rattle.run_rows.specs.FixedClock.{fixed_instants, fixed_run};
ghost use Rattle.run_rows.specs.Gains.{gains_instants, gains_run};
ghost use Rattle.run_rows.specs.Limit.{limit_instants, limit_run};
ghost use Rattle.run_model.specs.Behaved.{WellBehaved};
ghost use Rattle.run_rows.specs.Pulsed.{pulsed_instants, pulsed_run};
ghost use Rattle.run_rows.specs.Quiet.{QuietAnswersWell, quiet_run};
ghost use Rattle.run_rows.specs.Relayed.{relayed_instants, relayed_run};
ghost use Rattle.run_rows.specs.Row.{HasTrace};
ghost use Rattle.run_rows.specs.Samplers.{samplers_instants, samplers_run};
ghost use Rattle.run_rows.specs.Ticks.{ticks_instants, ticks_run};
ghost use Rattle.run_rows.specs.Timer.{timer_instants, timer_run};
ghost use Rattle.run_rows.specs.Woken.{woken_instants, woken_run};
ghost use Rattle.std.specs.Prelude.{true, false};
ghost use Rattle.system_model.specs.declared.plan.EndKind.TheVariants.{Limit, Stop};

/// A countdown Clock that is armed for its own point ticks in the next instant there.
pub fn timer_trace()
    ensures { HasTrace timer_run timer_instants Stop 20 }
{}

/// An FMU that asks for another instant again and again ends the run at the limit.
pub fn limit_trace()
    ensures { HasTrace limit_run limit_instants Limit 0 }
{}

/// With event mode the output of a gain follows its input in the same instant.
pub fn events_trace()
    ensures { HasTrace (counter_gain_run true) with_events Stop 20 }
{}

/// Without event mode it follows one step later.
pub fn steps_trace()
    ensures { HasTrace (counter_gain_run false) without_events Stop 20 }
{}

/// Clocked ports have no value before the first tick, and keep their values between ticks.
pub fn samplers_trace()
    ensures { HasTrace samplers_run samplers_instants Stop 20 }
{}

/// A Clock that is an output makes the Clock that it feeds active in the same instant.
pub fn relayed_trace()
    ensures { HasTrace relayed_run relayed_instants Stop 20 }
{}

/// The values of Initialization Mode are written before the first instant.
pub fn gains_trace()
    ensures { HasTrace gains_run gains_instants Stop 20 }
{}

/// A constant Clock ticks in the first instant of a point alone, and is inactive after the Update.
pub fn ticks_trace()
    ensures { HasTrace ticks_run ticks_instants Stop 20 }
{}

/// A triggered Clock that is an input is active in the Update of its instant.
pub fn counted_trace()
    ensures { HasTrace counted_run counted_instants Stop 20 }
{}

/// Each change of mode is sent once, and each step and each instant has its one call.
pub fn calls_trace()
    ensures { HasTrace calls_run calls_instants Stop 20 }
{}

/// A fixed Clock ticks as its FMU answered in Initialization Mode.
pub fn fixed_trace()
    ensures { HasTrace fixed_run fixed_instants Stop 20 }
{}

/// A changing Clock ticks first after the shift that its FMU answers, then after the interval that it answers at each tick.
pub fn pulsed_trace()
    ensures { HasTrace pulsed_run pulsed_instants Stop 20 }
{}

/// A point that an FMU asks for in its Update is one at which all steps end.
pub fn woken_trace()
    ensures { HasTrace woken_run woken_instants Stop 20 }
{}

/// Where one FMU ends its step early, the others step to that point alone, from where they stood.
pub fn alarmed_trace()
    ensures { HasTrace alarmed_run alarmed_instants Stop 20 }
{}

/// An FMU that answers each call of a run well, and a run of such FMUs, which is well behaved.
pub fn quiet_laws()
    ensures always { QuietAnswersWell }
    ensures run { WellBehaved quiet_run }
{}
