/// A call that each FMU is sent, or each with event mode, at one place of the calling sequence (FMI 3.0, 4.2.1). Points and sizes are counts.
#[derive(Clone, Copy, Debug, PartialEq, Eq)]
pub enum Ask {
    /// with the version of the link
    Instantiate { link: u32 },
    EnterInitialization { start: u64, stop: u64 },
    ExitInitialization,
    /// to the FMUs with event mode alone
    EnterEvent,
    /// to the FMUs with event mode alone
    EnterStep,
    DoStep { at: u64, size: u64 },
}
