/// What an FMU in Step Mode is to be asked in a round of its run (FMI 3.0, 4.2.1.2: fmi3DoStep; 2.2.6: fmi3GetFMUState,
/// fmi3SetFMUState, fmi3FreeFMUState). Points and sizes are counts.
#[derive(Clone, Copy, Debug, PartialEq, Eq)]
pub enum Job {
    Nothing,
    /// Its state is saved in its slot.
    Save,
    /// It goes back to the state that was saved, which stays saved.
    Restore,
    /// The state that was saved is freed.
    Free,
    /// It makes a step from a point.
    Step { at: u64, size: u64 },
}
