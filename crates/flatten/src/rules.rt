//! The first element that breaks a rule of connectors, connections, saved states and ports.
ghost use Rattle.std.specs.Prelude.{◌≡◌, ◌≢◌, ◌↔◌, ℕ, ◌+◌, ◌<◌, Contains, IfOk, IsSomeAnd, IsTrue, MatchOption, Some, false, length, option_copied, slice_get, slice_index_or};
ghost use Rattle.connection_paths.specs.declared.point.Point.{Point};
ghost use Rattle.ssd_tree.specs.declared.tree.Connection as sides;
ghost use Rattle.value_types.specs.Joint as types;
ghost use Rattle.value_types.specs.Shape.{timing_at};
ghost use Rattle.value_types.specs.declared.joint.Joint.TheVariants.{WrongRange};
ghost use Rattle.value_types.specs.declared.shape.ClockTiming.{ClockTiming};
ghost use Rattle.value_types.specs.declared.shape.IntervalVariability.TheVariants.{Triggered};
ghost use Rattle.value_types.specs.declared.shape.Shape.{Shape};
ghost use Rattle.value_types.specs.declared.values.PortType.{PortType};
ghost use Rattle.system_model.specs.EarlyReturn.{early_count};
ghost use Rattle.doc_tables.specs.Violations.{FindsLeast, earlier_violation};
ghost use Rattle.flatten.specs.Broken.{ConnectorBreaks, IsBrokenConnection, IsBrokenConnector, IsReachedAt, IsReachedBy, TellsOther, TellsTooWide, input_of, number_of, path_fault, tree_for};
ghost use Rattle.flatten.specs.Indexed.{IsIndexed, ends_of};
ghost use Rattle.flatten.specs.Marks.{HasMarks, beside_marks};
ghost use Rattle.flatten.specs.Paths.{plain};
ghost use Rattle.flatten.specs.Points.{variable_of};
ghost use Rattle.flatten.specs.Rules.{Breaks, earlier, GivesOther, HasNoSavedState, HasOtherChange, HasOtherCausality, HasOtherType, HasTooManyPorts, IsFirstFlatteningViolation, IsFitting, IsForOther, IsLastOf, IsOtherClass, IsTimeBased, IsTooWide, IsUnsaved, RepeatsEnd, ViolatesFlattening, ports_in};

use crate::connectors::FlatTree;
use crate::marks::{ClassMarks, Marks, TypeMarks, child_class, class_at};
use connection_paths::Point;
use doc_tree::{FlatteningRule, Rule};
use parameter_values::Change;
use ssd_tree::{ConnectorKind, Owner, TypeChild};
use std::alloc::{AllocError, Global};
use value_types::{
    Causality, Class, IntervalVariability, Joint, PortType, Shape, Variable, connectable,
};

/// The greatest number of ports of a system.
pub const MOST_PORTS: usize = 65_536;

/// The rules that elements are tested for, in the order of their numbers.
const ELEMENT_RULES: [Rule; 9] = [
    Rule::Flattening(FlatteningRule::NoSuchVariable),
    Rule::Flattening(FlatteningRule::OtherCausality),
    Rule::Flattening(FlatteningRule::OtherClass),
    Rule::Flattening(FlatteningRule::EndTwice),
    Rule::Flattening(FlatteningRule::TooWide),
    Rule::Flattening(FlatteningRule::FedClock),
    Rule::SavesNoState,
    Rule::TooManyPorts,
    Rule::Flattening(FlatteningRule::OtherChange),
];

// The lesser of two elements, where there are both.
fn earlier(one: Option<usize>, other: Option<usize>) -> Option<usize>
    ensures { result ≡ earlier one other }
{
    match (one, other) {
        (Some(one), Some(other)) => Some(one.min(other)),
        (Some(one), None) => Some(one),
        (None, other) => other,
    }
}

// The violation at the lesser element; at one element the first, whose rule has the lesser number.
fn earlier_violation(
    one: Option<(usize, Rule)>,
    node: Option<usize>,
    rule: Rule,
) -> Option<(usize, Rule)>
    ensures { result ≡ earlier_violation one node rule }
{
    match (one, node) {
        (Some((first, broken)), Some(node)) => if node < first {
            Some((node, rule))
        } else {
            Some((first, broken))
        },
        (None, Some(node)) => Some((node, rule)),
        (one, None) => one,
    }
}

// Whether a connector gives a type of another class.
fn gives_other(child: Option<TypeChild>, wanted: Option<Class>) -> bool
    ensures { IsTrue result ↔ GivesOther child wanted }
{
    match child {
        Some(child) => child_class(child) != wanted,
        None => false,
    }
}

fn is_for_other(kind: ConnectorKind, causality: Causality) -> bool
    ensures { IsTrue result ↔ IsForOther kind causality }
{
    match kind {
        ConnectorKind::Input => causality != Causality::Input,
        ConnectorKind::Output => causality != Causality::Output,
        ConnectorKind::Parameter | ConnectorKind::CalculatedParameter => false,
    }
}

fn is_time_based(shape: &Shape, reference: u32) -> bool
    ensures { IsTrue result ↔ IsSomeAnd (timing_at shape.now.clocks reference)
        (λ (clock : ClockTiming). clock.variability ≢ Triggered) }
{
    match shape.clocks.find(reference) {
        Some(clock) => clock.variability != IntervalVariability::Triggered,
        None => false,
    }
}

fn is_too_wide(from: PortType, to: Option<PortType>) -> bool
    ensures { IsTrue result ↔ IsSomeAnd to
        (λ (wanted : PortType). types.Joins from wanted WrongRange) }
{
    match to {
        Some(to) => connectable(from, to) == Joint::WrongRange,
        None => false,
    }
}

// Whether something of another class leads up to the connector.
fn tells_other(marks: &ClassMarks, wanted: Option<Class>, connector: usize) -> bool
    requires { connector < length marks.now.reached.items }
    ensures { IsTrue result ↔ TellsOther connector wanted marks.now }
{
    marks.class != wanted && marks.reached[connector]
}

// Whether outputs of a type that is too wide lead up to the connector.
fn tells_too_wide(marks: &TypeMarks, to: Option<PortType>, connector: usize) -> bool
    requires { connector < length marks.now.reached.items }
    ensures { IsTrue result ↔ TellsTooWide connector to marks.now }
{
    marks.reached[connector] && is_too_wide(marks.kind, to)
}

fn ports_in(shape: &Shape) -> usize
    ensures { result ≡ ports_in shape.now }
{
    shape
        .variables
        .as_slice()
        .iter()
        .filter(|variable| variable.is_port())
        .count()
}

fn might_return_early(shape: &Shape) -> bool
    ensures { result ≡ shape.now.might_return_early }
{
    shape.might_return_early
}

// How many components might return early.
fn early_count(shapes: &[Shape]) -> usize
    ensures { result ≡ early_count shapes.now }
{
    shapes
        .iter()
        .filter(|shape| might_return_early(*shape))
        .count()
}

// Whether the component can't save its state, though two or more might return early, of `early` that might.
fn is_unsaved(shapes: &[Shape], early: usize, component: usize) -> bool
    requires early { early ≡ early_count shapes.now }
    requires component { component < length shapes.now }
    ensures { IsTrue result ↔ IsUnsaved shapes.now component }
{
    early > 1 && !shapes[component].can_save_state
}

// Whether the connector leads on to an input whose class has other changes.
fn leads_to_other(marks: &Marks, change: &Change, connector: usize) -> bool
    requires integers { connector < length marks.now.no_integers.items }
    requires booleans { connector < length marks.now.no_booleans.items }
    ensures { result ≡ slice_index_or (beside_marks marks.now change.now) connector false }
{
    match change {
        Change::Linear { .. } => marks.no_integers[connector],
        Change::Integers { .. } => marks.no_integers[connector],
        Change::Booleans { .. } => marks.no_booleans[connector],
    }
}

impl<'a> FlatTree<'a> {
    fn names_no_variable(&self, connector: usize) -> bool
        requires indexed { IsIndexed self.now }
        requires connector { connector < length self.now.tree.now.connectors }
        ensures { IsTrue result ↔ IsSomeAnd (slice_get self.now.tree.now.connectors connector)
            (ConnectorBreaks self.now.tree.now self.now.shapes.now FlatteningRule.NoSuchVariable
            connector) }
    {
        !self.is_of_system(connector) && self.variable(connector).is_none()
    }

    fn has_other_causality(&self, connector: usize) -> bool
        requires indexed { IsIndexed self.now }
        requires connector { connector < length self.now.tree.now.connectors }
        ensures { IsTrue result ↔ IsSomeAnd (slice_get self.now.tree.now.connectors connector)
            (ConnectorBreaks self.now.tree.now self.now.shapes.now FlatteningRule.OtherCausality
            connector) }
    {
        match self.variable(connector) {
            Some(variable) => is_for_other(
                self.tree.connectors.as_slice()[connector].kind,
                variable.causality,
            ),
            None => false,
        }
    }

    fn has_other_type(&self, connector: usize) -> bool
        requires indexed { IsIndexed self.now }
        requires connector { connector < length self.now.tree.now.connectors }
        ensures { IsTrue result ↔ IsSomeAnd (slice_get self.now.tree.now.connectors connector)
            (ConnectorBreaks self.now.tree.now self.now.shapes.now FlatteningRule.OtherClass
            connector) }
    {
        match self.variable(connector) {
            Some(variable) => {
                variable.kind.is_some()
                    && gives_other(
                        self.tree.connectors.as_slice()[connector].child,
                        class_at(variable.kind),
                    )
            }
            None => false,
        }
    }

    // Whether the connector breaks the rule by itself.
    fn connector_breaks(&self, rule: FlatteningRule, connector: usize) -> bool
        requires indexed { IsIndexed self.now }
        requires connector { connector < length self.now.tree.now.connectors }
        ensures { IsTrue result ↔ IsSomeAnd (slice_get self.now.tree.now.connectors connector)
            (ConnectorBreaks self.now.tree.now self.now.shapes.now rule connector) }
    {
        match rule {
            FlatteningRule::NoSuchVariable => self.names_no_variable(connector),
            FlatteningRule::OtherCausality => self.has_other_causality(connector),
            FlatteningRule::OtherClass => self.has_other_type(connector),
            FlatteningRule::EndTwice
            | FlatteningRule::TooWide
            | FlatteningRule::FedClock
            | FlatteningRule::OtherChange => false,
        }
    }

    // The first connector that breaks the rule.
    fn first_connector(&self, rule: FlatteningRule) -> Option<usize>
        requires indexed { IsIndexed self.now }
        ensures { FindsLeast (IsBrokenConnector self.now.tree.now self.now.shapes.now rule) result }
    {
        let mut first = None;
        let connectors = self.tree.connectors.as_slice();
        for connector in 0..connectors.len() {
            if self.connector_breaks(rule, connector) {
                first = earlier(first, Some(connectors[connector].node));
            }
        }
        first
    }

    // The input that a connection ends at.
    fn input_at(&self, connector: usize) -> Option<&'a Variable>
        requires indexed { IsIndexed self.now }
        requires connector { connector < length self.now.tree.now.connectors }
        ensures { option_copied result ≡ input_of self.now.tree.now self.now.shapes.now connector }
    {
        match self.variable(connector) {
            Some(variable) => if variable.causality == Causality::Input {
                Some(variable)
            } else {
                None
            },
            None => None,
        }
    }

    // Whether a path to this input that passes where the connection begins has another class, or an ignored end.
    fn is_other_class(&self, marks: &Marks, start: usize, input: &Variable) -> bool
        requires indexed { IsIndexed self.now }
        requires marks { HasMarks self.now.tree.now self.now.shapes.now marks.now }
        requires start { start < length self.now.tree.now.connectors }
        ensures { IsTrue result ↔ IsReachedBy (IsOtherClass self.now.tree.now self.now.shapes.now)
            self.now.tree.now self.now.shapes.now start input.now }
    {
        if input.kind.is_none() && marks.fed[start] {
            return true;
        }
        let wanted = class_at(input.kind);
        for other in &marks.classes {
            if tells_other(other, wanted, start) {
                return true;
            }
        }
        false
    }

    fn is_end_too_wide(&self, marks: &Marks, start: usize, input: &Variable) -> bool
        requires indexed { IsIndexed self.now }
        requires marks { HasMarks self.now.tree.now self.now.shapes.now marks.now }
        requires start { start < length self.now.tree.now.connectors }
        ensures { IsTrue result ↔ IsReachedBy IsTooWide (plain self.now.tree.now)
            self.now.shapes.now start input.now }
    {
        for other in &marks.types {
            if tells_too_wide(other, input.kind, start) {
                return true;
            }
        }
        false
    }

    fn is_fed_clock(&self, marks: &Marks, start: usize, end: usize, input: &Variable) -> bool
        requires indexed { IsIndexed self.now }
        requires marks { HasMarks self.now.tree.now self.now.shapes.now marks.now }
        requires start { start < length self.now.tree.now.connectors }
        requires end { end < length self.now.tree.now.connectors }
        requires input { variable_of self.now.tree.now self.now.shapes.now end ≡ Some input.now }
        ensures { IsTrue result ↔ IsReachedAt (IsTimeBased self.now.shapes.now) self.now.tree.now
            self.now.shapes.now start end input.now }
    {
        match self.tree.connectors.as_slice()[end].owner {
            Owner::Component(component) => {
                marks.fed[start] && is_time_based(&self.shapes[component], input.reference)
            }
            Owner::System(_) => false,
        }
    }

    // Whether the connection is the last of a path that breaks the rule.
    fn connection_breaks(&self, marks: &Marks, rule: FlatteningRule, connection: usize) -> bool
        requires indexed { IsIndexed self.now }
        requires marks { HasMarks self.now.tree.now self.now.shapes.now marks.now }
        requires connection { connection < length self.now.tree.now.connections }
        ensures { (k : sides.Connection) →
            slice_get self.now.tree.now.connections connection ≡ Some k → (IsTrue result ↔ IsLastOf
            (path_fault self.now.tree.now self.now.shapes.now rule)
            (tree_for rule self.now.tree.now) self.now.shapes.now k) }
    {
        let ends = &self.tree.connections.as_slice()[connection];
        let Some(input) = self.input_at(ends.end) else {
            return false;
        };
        match rule {
            FlatteningRule::OtherClass => self.is_other_class(marks, ends.start, input),
            FlatteningRule::TooWide => {
                ends.change.is_none() && self.is_end_too_wide(marks, ends.start, input)
            }
            FlatteningRule::FedClock => self.is_fed_clock(marks, ends.start, ends.end, input),
            FlatteningRule::NoSuchVariable
            | FlatteningRule::OtherCausality
            | FlatteningRule::EndTwice
            | FlatteningRule::OtherChange => false,
        }
    }

    // The first connection that is the last of a path that breaks the rule.
    fn first_connection(&self, marks: &Marks, rule: FlatteningRule) -> Option<usize>
        requires indexed { IsIndexed self.now }
        requires marks { HasMarks self.now.tree.now self.now.shapes.now marks.now }
        ensures { FindsLeast (IsBrokenConnection self.now.tree.now self.now.shapes.now rule)
            result }
    {
        let mut first = None;
        let connections = self.tree.connections.as_slice();
        for connection in 0..connections.len() {
            if self.connection_breaks(marks, rule, connection) {
                first = earlier(first, Some(connections[connection].node));
            }
        }
        first
    }

    // Whether a transformation stands on a path to an input of another class.
    fn has_other_change(&self, marks: &Marks, connection: usize) -> bool
        requires indexed { IsIndexed self.now }
        requires marks { HasMarks self.now.tree.now self.now.shapes.now marks.now }
        requires connection { connection < length self.now.tree.now.connections }
        ensures { (k : sides.Connection) →
            slice_get self.now.tree.now.connections connection ≡ Some k →
            (IsTrue result ↔ HasOtherChange self.now.tree.now self.now.shapes.now k) }
    {
        let ends = &self.tree.connections.as_slice()[connection];
        let Some(change) = &ends.change else {
            return false;
        };
        marks.fed[ends.start] && leads_to_other(marks, change, ends.end)
    }

    // The first connection with a transformation on a path to an input of another class.
    fn first_other_change(&self, marks: &Marks) -> Option<usize>
        requires indexed { IsIndexed self.now }
        requires marks { HasMarks self.now.tree.now self.now.shapes.now marks.now }
        ensures { FindsLeast (Breaks self.now.tree.now self.now.shapes.now
            FlatteningRule.OtherChange) result }
    {
        let mut first = None;
        let connections = self.tree.connections.as_slice();
        for connection in 0..connections.len() {
            if self.has_other_change(marks, connection) {
                first = earlier(first, Some(connections[connection].node));
            }
        }
        first
    }

    // A number for what a connector stands for: no other point has it.
    pub(crate) fn point_number(&self, connector: usize) -> usize
        requires indexed { IsIndexed self.now }
        requires connector { connector < length self.now.tree.now.connectors }
        ensures number { (point : Point) → slice_get self.now.points.items connector ≡ Some point →
            result ≡ number_of (length self.now.variables.all.items) point }
        ensures within { result < length self.now.variables.all.items + length
            self.now.points.items }
    {
        match self.points[connector] {
            Point::Variable(number) => number,
            Point::OfSystem(number) => self.variables.all.len() + number,
        }
    }

    // The first connection that ends where one before it does.
    fn first_repeated_end(&self, alloc: Global) -> Result<Option<usize>, AllocError>
        requires indexed { IsIndexed self.now }
        ensures { IfOk result (FindsLeast (RepeatsEnd self.now.tree.now self.now.shapes.now)) }
    {
        let mut taken = vec![in alloc; false; self.variables.all.len() + self.points.len()]?;
        let mut first = None;
        for connection in 0..self.connections.len() {
            let point = self.point_number(self.connections[connection].end);
            if taken[point] {
                first = earlier(
                    first,
                    Some(self.tree.connections.as_slice()[connection].node),
                );
            }
            taken[point] = true;
        }
        Ok(first)
    }

    // The first component that can't save its state, though two or more might return early.
    fn first_unsaved(&self) -> Option<usize>
        requires indexed { IsIndexed self.now }
        ensures { FindsLeast (HasNoSavedState self.now.tree.now self.now.shapes.now) result }
    {
        let early = early_count(self.shapes);
        let mut first = None;
        for component in 0..self.shapes.len() {
            if is_unsaved(self.shapes, early, component) {
                first = earlier(first, Some(self.tree.components.as_slice()[component].node));
            }
        }
        first
    }

    // The first component with which the ports are too many.
    fn first_with_too_many(&self) -> Option<usize>
        requires indexed { IsIndexed self.now }
        ensures { FindsLeast (HasTooManyPorts self.now.tree.now self.now.shapes.now) result }
    {
        let mut count: usize = 0;
        let mut first = None;
        for component in 0..self.shapes.len() {
            count = count.saturating_add(ports_in(&self.shapes[component]));
            if count > MOST_PORTS {
                first = earlier(first, Some(self.tree.components.as_slice()[component].node));
            }
        }
        first
    }

    // The first connector or connection that breaks the rule.
    fn first_broken(
        &self,
        alloc: Global,
        marks: &Marks,
        rule: FlatteningRule,
    ) -> Result<Option<usize>, AllocError>
        requires indexed { IsIndexed self.now }
        requires marks { HasMarks self.now.tree.now self.now.shapes.now marks.now }
        ensures { IfOk result (FindsLeast (Breaks self.now.tree.now self.now.shapes.now rule)) }
    {
        match rule {
            FlatteningRule::EndTwice => self.first_repeated_end(alloc),
            FlatteningRule::OtherChange => Ok(self.first_other_change(marks)),
            _ => Ok(earlier(
                self.first_connector(rule),
                self.first_connection(marks, rule),
            )),
        }
    }

    // The first element that breaks the rule.
    fn first_breach(
        &self,
        alloc: Global,
        marks: &Marks,
        rule: Rule,
    ) -> Result<Option<usize>, AllocError>
        requires indexed { IsIndexed self.now }
        requires marks { HasMarks self.now.tree.now self.now.shapes.now marks.now }
        ensures { IfOk result (FindsLeast (ViolatesFlattening self.now.tree.now self.now.shapes.now rule)) }
    {
        match rule {
            Rule::Flattening(rule) => self.first_broken(alloc, marks, rule),
            Rule::SavesNoState => Ok(self.first_unsaved()),
            Rule::TooManyPorts => Ok(self.first_with_too_many()),
            _ => Ok(None),
        }
    }

    /// The first element that breaks a rule, and the rule of the least number that it breaks.
    pub(crate) fn first_violation(&self, alloc: Global) -> Result<Option<(usize, Rule)>, AllocError>
        requires { IsIndexed self.now }
        ensures { IfOk result (λ found. MatchOption found
            (IsFitting self.now.tree.now self.now.shapes.now)
            (λ violation. IsFirstFlatteningViolation self.now.tree.now self.now.shapes.now violation.0 violation.1)) }
    {
        let marks = self.marks(alloc)?;
        let mut first = None;
        for rule in ELEMENT_RULES {
            let node = self.first_breach(alloc, &marks, rule)?;
            first = earlier_violation(first, node, rule);
        }
        Ok(first)
    }
}
