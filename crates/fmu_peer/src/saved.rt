/// A state that an instance keeps in its slot. It can't be dropped: it is freed, or abandoned with an instance that may be
/// sent nothing more.
pub struct Saved {
    pub(crate) kept: (),
}
