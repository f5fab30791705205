//! What the bytes of descriptions say: the outline of a system, the shapes of its FMUs, and the system that they make together, or the first rule that they break.
#![tactic(auto)]

mod assembly;
mod binding;
mod documents;
mod fault;
mod laws;
mod outline;
mod parameters;
mod read_document;
mod reading;

pub use assembly::{AssemblyFault, assemble};
pub use binding::{BindingFault, bind_parameters};
pub use documents::{SystemDocument, document_at, place_at};
pub use fault::Fault;
pub use laws::loading_laws;
pub use outline::{Outline, lone_outline};
pub use parameters::{GivenBinding, GivenMapping, GivenSet};
pub use read_document::ReadDocument;
pub use reading::{
    mapping_within, read_mapping, read_shape, read_system_document, read_values, values_within,
};
