//! The rules of a model description, in the order of their numbers, and the first that a tree breaks.
ghost use Rattle.std.specs.Prelude.{◌≡◌, ◌↔◌, ◌<◌, ℕ, IsTrue, IfOk, MatchOption, codes, false};
ghost use Rattle.fmu_description.specs.Elements.{IsCoSimulation};
ghost use Rattle.fmu_description.specs.Indexed.{IsIndexed};
ghost use Rattle.fmu_description.specs.Rules.{BreaksNoRule, HasNoEvents, HasOtherName, HasOtherVersion, IsFirstDescriptionViolation, IsLeast, IsSoundDescription, IsVersion, LacksCoSimulation, LacksOfCoSimulation, LacksOfUnknown, LacksSomething, MisreadsOfCoSimulation, MisreadsOfUnknown, MisreadsOfVariable, MisreadsSetting, MisreadsSomething, NamesNoClockAt, NamesNoVariableAt, NamesOtherVersion, SerializesUnsaved, ViolatesDescription};
ghost use Rattle.doc_tree.specs.declared.rule.DescriptionRule.{DescriptionRule};

use crate::absent::{lacks_of_alias, lacks_of_root, lacks_of_variable};
use crate::clock_rules::{
    breaks_causality, breaks_counts, breaks_profile, is_timed, lacks_interval,
};
use crate::elements::{has_flag, is_variable};
use crate::indexed::IndexedTree;
use crate::misread::{
    misreads_flag, misreads_of_clock, misreads_reference, misreads_references, misreads_start,
};
use doc_tables::{attribute, lacks, name};
use doc_tree::{DESCRIPTION_RULES, DescriptionRule, Tree};
use std::alloc::{AllocError, Global};

fn has_other_name(tree: &Tree, node: usize) -> bool
    ensures { IsTrue result ↔ HasOtherName tree.now node }
{
    node == 0 && name(tree, node) != "fmiModelDescription"
}

fn is_version(text: &str) -> bool
    ensures { IsTrue result ↔ IsVersion text.now }
{
    text == "3.0" || text.as_bytes().starts_with(b"3.0.")
}

fn names_other_version(tree: &Tree, node: usize) -> bool
    ensures { IsTrue result ↔ NamesOtherVersion tree.now node }
{
    match attribute(tree, node, "fmiVersion") {
        Some(version) => !is_version(version),
        None => false,
    }
}

fn has_other_version(tree: &Tree, node: usize) -> bool
    ensures { IsTrue result ↔ HasOtherVersion tree.now node }
{
    node == 0 && names_other_version(tree, node)
}

impl IndexedTree<'_> {
    fn lacks_co_simulation(&self, node: usize) -> bool
        requires { IsIndexed self.now }
        ensures { IsTrue result ↔ LacksCoSimulation self.now.tree.now node }
    {
        node == 0 && self.has_no_co_simulation()
    }

    fn lacks_of_co_simulation(&self, node: usize) -> bool
        requires { IsIndexed self.now }
        ensures { IsTrue result ↔ LacksOfCoSimulation self.now.tree.now node }
    {
        self.is_co_simulation(node) && lacks(self.tree, node, "modelIdentifier")
    }

    fn lacks_of_unknown(&self, node: usize) -> bool
        requires { IsIndexed self.now }
        ensures { IsTrue result ↔ LacksOfUnknown self.now.tree.now node }
    {
        self.is_unknown(node) && lacks(self.tree, node, "valueReference")
    }

    fn lacks_something(&self, node: usize) -> bool
        requires { IsIndexed self.now }
        ensures { IsTrue result ↔ LacksSomething self.now.tree.now node }
    {
        lacks_of_root(self.tree, node)
            || self.lacks_of_co_simulation(node)
            || lacks_of_variable(self.tree, node)
            || lacks_of_alias(self.tree, node)
            || self.lacks_of_unknown(node)
    }

    fn misreads_of_co_simulation(&self, node: usize) -> bool
        requires { IsIndexed self.now }
        ensures { IsTrue result ↔ MisreadsOfCoSimulation self.now.tree.now node }
    {
        let tree = self.tree;
        self.is_co_simulation(node)
            && (misreads_flag(tree, node, "hasEventMode")
                || misreads_flag(tree, node, "mightReturnEarlyFromDoStep")
                || misreads_flag(tree, node, "canHandleVariableCommunicationStepSize")
                || misreads_flag(tree, node, "canGetAndSetFMUState")
                || misreads_flag(tree, node, "canSerializeFMUState"))
    }

    fn misreads_setting(&self, node: usize) -> bool
        requires { IsIndexed self.now }
        ensures { IsTrue result ↔ MisreadsSetting self.now.tree.now node }
    {
        misreads_flag(self.tree, node, "canHandleMultipleSetPerTimeInstant")
            || misreads_start(self.tree, node, self.is_ignored(node))
    }

    fn misreads_of_variable(&self, alloc: Global, node: usize) -> Result<bool, AllocError>
        requires { IsIndexed self.now }
        ensures { IfOk result (λ b. IsTrue b ↔ MisreadsOfVariable self.now.tree.now node) }
    {
        Ok(
            is_variable(self.tree, node)
                && (misreads_reference(self.tree, node)
                    || misreads_references(alloc, self.tree, node, "clocks")?
                    || self.misreads_setting(node)),
        )
    }

    fn misreads_of_unknown(&self, alloc: Global, node: usize) -> Result<bool, AllocError>
        requires { IsIndexed self.now }
        ensures { IfOk result (λ b. IsTrue b ↔ MisreadsOfUnknown self.now.tree.now node) }
    {
        let tree = self.tree;
        Ok(
            self.is_unknown(node)
                && (misreads_reference(tree, node)
                    || misreads_references(alloc, tree, node, "dependencies")?),
        )
    }

    fn misreads_something(&self, alloc: Global, node: usize) -> Result<bool, AllocError>
        requires { IsIndexed self.now }
        ensures { IfOk result (λ b. IsTrue b ↔ MisreadsSomething self.now.tree.now node) }
    {
        if self.misreads_of_co_simulation(node) {
            return Ok(true);
        }
        if self.misreads_of_variable(alloc, node)? {
            return Ok(true);
        }
        if misreads_of_clock(self.tree, node) {
            return Ok(true);
        }
        self.misreads_of_unknown(alloc, node)
    }

    fn variable_names_no_clock(&self, alloc: Global, node: usize) -> Result<bool, AllocError>
        requires { IsIndexed self.now }
        ensures { IfOk result (λ b. IsTrue b ↔ NamesNoClockAt self.now.tree.now node) }
    {
        Ok(is_variable(self.tree, node) && self.names_no_clock(alloc, node)?)
    }

    fn unknown_names_no_variable(&self, alloc: Global, node: usize) -> Result<bool, AllocError>
        requires { IsIndexed self.now }
        ensures { IfOk result (λ b. IsTrue b ↔ NamesNoVariableAt self.now.tree.now node) }
    {
        Ok(self.is_unknown(node) && self.names_no_variable(alloc, node)?)
    }

    fn serializes_unsaved(&self, node: usize) -> bool
        requires { IsIndexed self.now }
        ensures { IsTrue result ↔ SerializesUnsaved self.now.tree.now node }
    {
        self.is_co_simulation(node)
            && has_flag(self.tree, node, "canSerializeFMUState")
            && !has_flag(self.tree, node, "canGetAndSetFMUState")
    }

    fn has_no_events(&self, node: usize) -> bool
        requires { IsIndexed self.now }
        ensures { IsTrue result ↔ HasNoEvents self.now.tree.now node }
    {
        is_timed(self.tree, node) && self.has_no_event_mode()
    }

    /// Whether an element breaks a rule.
    fn breaks(&self, alloc: Global, rule: DescriptionRule, node: usize) -> Result<bool, AllocError>
        requires { IsIndexed self.now }
        ensures { IfOk result (λ b. IsTrue b ↔ ViolatesDescription self.now.tree.now self.now.resolution rule
            node) }
    {
        match rule {
            DescriptionRule::RootName => Ok(has_other_name(self.tree, node)),
            DescriptionRule::Version => Ok(has_other_version(self.tree, node)),
            DescriptionRule::NoCoSimulation => Ok(self.lacks_co_simulation(node)),
            DescriptionRule::Absent => Ok(self.lacks_something(node)),
            DescriptionRule::Misread => self.misreads_something(alloc, node),
            DescriptionRule::ReferenceTwice => Ok(self.repeats_reference(node)),
            DescriptionRule::NameTwice => Ok(self.repeats_name(node)),
            DescriptionRule::NoInterval => Ok(lacks_interval(self.tree, node)),
            DescriptionRule::ClockCausality => Ok(breaks_causality(self.tree, node)),
            DescriptionRule::Uneven => Ok(breaks_counts(self.tree, node, self.resolution)),
            DescriptionRule::NoClock => self.variable_names_no_clock(alloc, node),
            DescriptionRule::NoVariable => self.unknown_names_no_variable(alloc, node),
            DescriptionRule::SerializesUnsaved => Ok(self.serializes_unsaved(node)),
            DescriptionRule::LeftOut => Ok(breaks_profile(self.tree, node)),
            DescriptionRule::ClockWithoutEvents => Ok(self.has_no_events(node)),
        }
    }

    /// The rule of the least number that an element breaks.
    fn broken_rule(&self, alloc: Global, node: usize) -> Result<Option<DescriptionRule>, AllocError>
        requires { IsIndexed self.now }
        ensures { IfOk result (λ found. MatchOption found
            (BreaksNoRule self.now.tree.now self.now.resolution node)
            (IsLeast self.now.tree.now self.now.resolution node)) }
    {
        for rule in DESCRIPTION_RULES {
            if self.breaks(alloc, rule, node)? {
                return Ok(Some(rule));
            }
        }
        Ok(None)
    }

    /// The first element that breaks a rule, and the rule of the least number that it breaks.
    #[tactic(auto, using(crate::proofs::RuleLemmas::all_sound))]
    pub(crate) fn first_violation(
        &self,
        alloc: Global,
    ) -> Result<Option<(usize, DescriptionRule)>, AllocError>
        requires { IsIndexed self.now }
        ensures { IfOk result (λ found. MatchOption found
            (IsSoundDescription self.now.tree.now self.now.resolution)
            (λ violation. IsFirstDescriptionViolation self.now.tree.now self.now.resolution violation.0 violation.1)) }
    {
        // Where there is no element, the root is missing.
        for node in 0..self.tree.len().max(1) {
            if let Some(rule) = self.broken_rule(alloc, node)? {
                return Ok(Some((node, rule)));
            }
        }
        Ok(None)
    }
}
