ghost use Rattle.system_model.specs.Example.{sampling_system};
ghost use Rattle.system_model.specs.Outputs.{IsOfOutputs};
ghost use Rattle.system_model.specs.Sound.{IsSound};
ghost use Rattle.system_model.specs.declared.system.System.{System};

/// Laws on sound systems: an FMU that samples its own output is one, and so are FMUs whose ports are outputs, side by side.
pub fn sound_systems()
    ensures example { IsSound sampling_system }
    ensures outputs { (system : System) → IsOfOutputs system → IsSound system }
{}
