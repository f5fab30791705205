/// A parameter: a variable of a component, both by their places.
#[derive(Clone, Copy, Debug, PartialEq, Eq)]
pub struct Target {
    pub component: usize,
    pub variable: usize,
}
