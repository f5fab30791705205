//! The files that describe a system, read from a folder in their order: the system that they make, or the file that isn't taken and why.
#![tactic(auto)]

mod bindings;
mod documents;
mod holding;
mod loaded;
mod loading;
mod named;
mod paths;
mod reading;
mod room;
mod shapes;
mod subject;
mod together;

pub use holding::load_held;
pub use loaded::Loaded;
pub use loading::{LoadError, load};
pub use named::{FileFault, NamedFile};
pub use reading::read_file;
pub use room::{NoMemory, make_room};
pub use subject::Subject;
