//! Components that wait for their documents.
use crate::numbers::Place;
use sim_base::Text;
use ssd_tree::NestedKind;

/// A Component of the whole whose document isn't read yet: its place, where it is told, and the level of its document below
/// the outermost one.
#[derive(Drop)]
pub struct Waiting {
    pub component: usize,
    pub place: Place,
    pub own_name: Text,
    pub kind: NestedKind,
    pub level: usize,
}
