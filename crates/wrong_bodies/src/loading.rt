//! What bytes say, and the system that descriptions make together.
ghost use Rattle.std.specs.Prelude.{IfErr, IfOk};
ghost use Rattle.std.specs.List.{AllZip};
ghost use Rattle.system_model.specs.Bounds.{AreParameterValues};
ghost use Rattle.system_model.specs.Sound.{IsSound};
ghost use Rattle.flatten.specs.Given.{AreShapesOf, IsWholeTree};
ghost use Rattle.system_loading.specs.Assembly.{MakesAlone};
ghost use Rattle.system_loading.specs.Binding.{AreReady, BindsAlone, TellsBinding};
ghost use Rattle.system_loading.specs.Faults.{TellsFirst, TellsTogether};
ghost use Rattle.system_loading.specs.Readings.{BreaksModel, IsModel, SaysAlone};

use std::alloc::Global;
use system_loading::{
    AssemblyFault, BindingFault, Fault, GivenBinding, Outline, assemble, bind_parameters,
    read_shape,
};
use system_model::{Bound, System};
use value_types::Shape;

/// The shape of the FMU whose model description the bytes are, or the first rule that they break and its place.
pub fn shape_of(alloc: Global, bytes: &[u8], resolution: u64) -> Result<Shape, Fault>
    ensures ok { IfOk result (SaysAlone (IsModel resolution bytes.now)
        (BreaksModel resolution bytes.now)) }
    ensures err { IfErr result (TellsFirst (IsModel resolution bytes.now)
        (BreaksModel resolution bytes.now)) }
{
    read_shape(alloc, bytes, resolution)
}

/// The system of an outline, or the first rule that its files break together and the element.
pub fn assemble_system(
    alloc: Global,
    outline: &Outline,
    shapes: &[Shape],
) -> Result<System, AssemblyFault>
    requires whole { IsWholeTree outline.now.systems }
    requires shapes { AreShapesOf outline.now.systems shapes.now }
    ensures ok { IfOk result (MakesAlone outline.now shapes.now) }
    ensures err { IfErr result (TellsTogether outline.now shapes.now) }
    ensures sound { IfOk result IsSound }
{
    assemble(alloc, outline, shapes)
}

/// The values that the bindings of an outline give to the parameters of its components.
pub fn bind_values(
    alloc: Global,
    outline: &Outline,
    shapes: &[Shape],
    given: Vec<GivenBinding>,
) -> Result<Bound, BindingFault>
    requires ready { AreReady outline.now shapes.now given.items }
    ensures ok { IfOk result (BindsAlone outline.now shapes.now given.items) }
    ensures values { IfOk result (λ bound. AllZip AreParameterValues shapes.now bound.components) }
    ensures err { IfErr result (TellsBinding outline.now shapes.now given.items) }
{
    bind_parameters(alloc, outline, shapes, given)
}
