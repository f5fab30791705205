ghost use Rattle.std.specs.Prelude.{◌↔◌, IsTrue};

/// What a connector stands for: two that stand for one point are one end of connections.
#[derive(Clone, Copy, Debug, PartialEq, Eq)]
pub enum Point {
    /// a variable of a component, under a number of its own
    Variable(usize),
    /// a connector of a system, under a number of its own
    OfSystem(usize),
}

/// A connection from one connector to another, by their places.
#[derive(Clone, Copy, Debug, PartialEq, Eq)]
pub struct Connection {
    pub start: usize,
    pub end: usize,
}

impl Connection {
    ghost use Rattle.connection_paths.specs.Paths.{IsWithin};

    /// Whether both ends are among so many connectors.
    pub fn is_within(self, count: usize) -> bool
        ensures { IsTrue result ↔ IsWithin count self }
    {
        self.start < count && self.end < count
    }
}
