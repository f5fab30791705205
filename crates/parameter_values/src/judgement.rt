/// Whether a parameter takes a value after a change, and why not.
#[derive(Clone, Copy, Debug, PartialEq, Eq)]
pub enum Judgement {
    /// It takes this number; a Boolean is 0 or 1.
    Taken(i128),
    /// The value isn't of the parameter's class.
    OtherClass,
    /// The value is of the parameter's class, and the change is for another.
    OtherChange,
    /// The change has no pair for the value.
    NoPair,
    /// The type of the parameter doesn't hold the number.
    Outside,
}
