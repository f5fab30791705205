/// What is asked for in a directory.
#[derive(Clone, Copy, Debug, PartialEq, Eq)]
pub enum Subject {
    /// the FMU there, which `modelDescription.xml` describes
    Fmu,
    /// the system there, which `SystemStructure.ssd` describes
    System,
}
