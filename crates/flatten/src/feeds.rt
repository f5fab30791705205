//! The ports that variables are, and the outputs that feed them.
ghost use Rattle.std.specs.Prelude.{◌≡◌, ◌↔◌, ℕ, ◌<◌, ◌≤◌, All, IfOk, Some, count_by, length, reverse};
ghost use Rattle.std.specs.List.{filter_map};
ghost use Rattle.system_model.specs.declared.system.Feed.{Feed};
ghost use Rattle.sim_base.specs.declared.numbers.PortId.{PortId};
ghost use Rattle.value_types.specs.Shape.{is_port};
ghost use Rattle.flatten.specs.Fed.{FindsFeed, HasPort, IsInputWith, number_in};
ghost use Rattle.flatten.specs.Ways.{AreLast, FindsWay, change_at};
ghost use Rattle.flatten.specs.Indexed.{IsIndexed, all_variables};
ghost use Rattle.flatten.specs.Ports.{AreFeeds, ArePortNumbers, at_number};
ghost use Rattle.flatten.specs.Rules.{IsFitting};

use crate::connectors::FlatTree;
use connection_paths::Point;
use parameter_values::Change;
use sim_base::{Items, PortId};
use std::alloc::{AllocError, Global};
use std::collections::BTreeMap;
use system_model::Feed;
use value_types::Causality;

fn variable_number(point: Point) -> Option<usize>
    ensures { result ≡ number_in point }
{
    match point {
        Point::Variable(number) => Some(number),
        Point::OfSystem(_) => None,
    }
}

/// The way of a path back from its end: its connections, the last first, and the connector of the output where it begins.
#[derive(Drop)]
struct Way {
    source: usize,
    back: Vec<usize>,
}

impl<'a> FlatTree<'a> {
    /// For each variable the number of its port, where it is one.
    pub(crate) fn port_numbers(&self, alloc: Global) -> Result<Vec<Option<PortId>>, AllocError>
        requires indexed { IsIndexed self.now }
        requires few { count_by is_port (all_variables self.now.shapes.now) ≤ 65536 }
        ensures { IfOk result (λ numbers. ArePortNumbers self.now.shapes.now numbers.items) }
    {
        let mut numbers = Vec::with_capacity(alloc, self.variables.all.len())?;
        let mut count: u32 = 0;
        for variable in &self.variables.all {
            if variable.is_port() {
                numbers.push(Some(PortId(count)))?;
                count += 1;
            } else {
                numbers.push(None)?;
            }
        }
        Ok(numbers)
    }

    // The number of the input that a connector names.
    fn input_number(&self, connector: usize) -> Option<usize>
        requires indexed { IsIndexed self.now }
        requires connector { connector < length self.now.tree.now.connectors }
        ensures { (n : ℕ) → (result ≡ Some n) ↔ IsInputWith self.now connector n }
    {
        let variable = self.variable(connector)?;
        if variable.causality == Causality::Input {
            variable_number(self.points[connector])
        } else {
            None
        }
    }

    // The port of the variable that a connector names.
    fn port_at(&self, numbers: &[Option<PortId>], connector: usize) -> Option<PortId>
        requires indexed { IsIndexed self.now }
        requires connector { connector < length self.now.tree.now.connectors }
        ensures { (port : PortId) → (result ≡ Some port) ↔ HasPort self.now numbers.now connector
            port }
    {
        let number = variable_number(self.points[connector])?;
        if number < numbers.len() {
            numbers[number]
        } else {
            None
        }
    }

    // For each point, by its number, the connection that ends there; no two connections end at one point.
    fn last_connections(&self, alloc: Global) -> Result<BTreeMap<usize, usize>, AllocError>
        requires indexed { IsIndexed self.now }
        requires fitting { IsFitting self.now.tree.now self.now.shapes.now }
        ensures { IfOk result (λ last. AreLast self.now (at_number last)) }
    {
        let mut last = BTreeMap::new(alloc);
        for connection in 0..self.connections.len() {
            let point = self.point_number(self.connections[connection].end);
            last.insert(point, connection)?;
        }
        Ok(last)
    }

    // The way to a connector: back from connection to connection, through connectors of systems, up to an output. Each
    // connection stands on it once, so there are at most as many as in the tree.
    fn way_to(
        &self,
        alloc: Global,
        last: &BTreeMap<usize, usize>,
        connector: usize,
    ) -> Result<Option<Way>, AllocError>
        requires indexed { IsIndexed self.now }
        requires fitting { IsFitting self.now.tree.now self.now.shapes.now }
        requires connector { connector < length self.now.tree.now.connectors }
        requires last { AreLast self.now (at_number last.now) }
        ensures { IfOk result (FindsWay self.now connector) }
    {
        let mut back = Vec::new(alloc);
        let mut at = connector;
        while back.len() < self.connections.len() {
            let Some(connection) = last.get(&self.point_number(at)).copied() else {
                return Ok(None);
            };
            back.push(connection)?;
            at = self.connections[connection].start;
            if self.is_output(at) {
                return Ok(Some(Way { source: at, back }));
            }
            if !self.is_of_system(at) {
                return Ok(None);
            }
        }
        Ok(None)
    }

    // The changes of these connections, the last connection first.
    fn changes_of(&self, alloc: Global, back: &[usize]) -> Result<Items<Change>, AllocError>
        requires indexed { IsIndexed self.now }
        requires back { All (λ k. k < length self.now.tree.now.connections) back.now }
        ensures { IfOk result (λ changes. changes ≡
            filter_map (change_at self.now.tree.now) (reverse back.now)) }
    {
        let mut changes = Vec::with_capacity(alloc, back.len())?;
        for i in 0..back.len() {
            let connection = back[back.len() - 1 - i];
            if let Some(change) = &self.tree.connections.as_slice()[connection].change {
                changes.push(change.copy(alloc)?)?;
            }
        }
        Ok(Items::from_vec(changes))
    }

    // The port that feeds the point of a connector, and what its path does to values.
    fn feed_to(
        &self,
        alloc: Global,
        numbers: &[Option<PortId>],
        last: &BTreeMap<usize, usize>,
        connector: usize,
    ) -> Result<Option<Feed>, AllocError>
        requires indexed { IsIndexed self.now }
        requires fitting { IsFitting self.now.tree.now self.now.shapes.now }
        requires connector { connector < length self.now.tree.now.connectors }
        requires last { AreLast self.now (at_number last.now) }
        ensures { IfOk result (FindsFeed self.now numbers.now connector) }
    {
        let Some(way) = self.way_to(alloc, last, connector)? else {
            return Ok(None);
        };
        let Some(from) = self.port_at(numbers, way.source) else {
            return Ok(None);
        };
        Ok(Some(Feed {
            from,
            changes: self.changes_of(alloc, way.back.as_slice())?,
        }))
    }

    /// For each variable that is fed, by its number, the port that feeds it.
    pub(crate) fn feeds(
        &self,
        alloc: Global,
        numbers: &[Option<PortId>],
    ) -> Result<BTreeMap<usize, Feed>, AllocError>
        requires indexed { IsIndexed self.now }
        requires fitting { IsFitting self.now.tree.now self.now.shapes.now }
        requires numbers { ArePortNumbers self.now.shapes.now numbers.now }
        ensures { IfOk result (λ feeds. AreFeeds self.now.tree.now self.now.shapes.now numbers.now
            (at_number feeds)) }
    {
        let last = self.last_connections(alloc)?;
        let mut feeds = BTreeMap::new(alloc);
        for connector in 0..self.points.len() {
            if let Some(input) = self.input_number(connector) {
                if let Some(feed) = self.feed_to(alloc, numbers, &last, connector)? {
                    feeds.insert(input, feed)?;
                }
            }
        }
        Ok(feeds)
    }
}
