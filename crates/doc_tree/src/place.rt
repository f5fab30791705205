use sim_base::Text;

/// Where a file breaks a rule.
#[derive(Debug, Drop)]
pub enum Place {
    /// a byte, counted from 0
    Byte { at: usize },
    /// an element, by its path: `/NAME[i]` for each level, where i counts all elements beside it from 1
    Element { path: Text },
}
