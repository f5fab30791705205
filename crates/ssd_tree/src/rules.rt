//! The rules of a system structure description, in the order of their numbers, and the first that a document breaks.
ghost use Rattle.std.specs.Prelude.{◌≡◌, ◌↔◌, ℕ, IsTrue, IfOk, MatchOption};
ghost use Rattle.doc_tree.specs.Rules.{system_number};
ghost use Rattle.doc_tables.specs.Elements.{attribute};
ghost use Rattle.doc_tables.specs.Violations.{BreaksNoRule, IsLeast};
ghost use Rattle.ssd_tree.specs.Elements.{IsMappingOf};
ghost use Rattle.ssd_tree.specs.Indexed.{IsIndexed};
ghost use Rattle.doc_tree.specs.declared.rule.SystemRule.TheVariants as r;
ghost use Rattle.ssd_tree.specs.Rules.{BindingHasNoSource, ComponentHasNoSource, HasMisread, HasNoPath, HasNoSource, HasOtherType, MappingHasNoSource, is_of_type, IsFirstStructureViolation, IsIncomplete, IsIncompleteBinding, IsIncompleteComponent, IsIncompleteConnection, IsIncompleteConnector, IsIncompleteEntry, IsIncompletePart, IsIncompleteRoot, IsIncompleteSystem, IsMisreadChange, IsOtherStructure, IsSoundIn, ReadsBelowSystem, system_count, ViolatesStructure};
ghost use Rattle.doc_tables.specs.Documents.{has_version};

use crate::elements::{has_child, kind_of};
use crate::indexed::IndexedTree;
use crate::sources::has_no_path;
use doc_tables::{attribute, children, is_named, lacks, lacks_text, name, parent};
use doc_tree::{SYSTEM_RULES, SystemRule, Tree};
use std::alloc::{AllocError, Global};
use transformations::{is_transformation, read_transformation};

fn has_version(tree: &Tree, node: usize) -> bool
    ensures { result ≡ has_version tree.now node }
{
    match attribute(tree, node, "version") {
        Some(version) => version == "1.0",
        None => false,
    }
}

fn system_count(tree: &Tree, node: usize) -> usize
    ensures { result ≡ system_count tree.now node }
{
    children(tree, node)
        .iter()
        .filter(|child| is_named(tree, **child, "System"))
        .count()
}

fn is_other_structure(tree: &Tree, node: usize) -> bool
    ensures { IsTrue result ↔ IsOtherStructure tree.now node }
{
    !is_named(tree, node, "SystemStructureDescription")
        || !has_version(tree, node)
        || system_count(tree, node) != 1
}

fn is_of_type(tree: &Tree, node: usize, wanted: &str) -> bool
    ensures { result ≡ is_of_type tree.now node wanted.now }
{
    match attribute(tree, node, "type") {
        Some(kind) => kind == wanted,
        None => true,
    }
}

fn says(tree: &Tree, node: usize, name: &str, wanted: &str) -> bool
    ensures { IsTrue result ↔ (attribute tree.now node name.now ≡ Some wanted.now) }
{
    match attribute(tree, node, name) {
        Some(text) => text == wanted,
        None => false,
    }
}

fn is_incomplete_root(tree: &Tree, node: usize) -> bool
    ensures { IsTrue result ↔ IsIncompleteRoot tree.now node }
{
    node == 0 && lacks_text(tree, node, "name")
}

// Whether an element is a transformation that doesn't read.
fn is_misread(alloc: Global, tree: &Tree, node: usize) -> Result<bool, AllocError>
    ensures { IfOk result (λ b. IsTrue b ↔ IsMisreadChange tree.now node) }
{
    if !is_transformation(name(tree, node)) {
        return Ok(false);
    }
    Ok(read_transformation(alloc, tree, node)?.is_none())
}

// Whether one of the transformations of an element doesn't read.
fn has_misread(alloc: Global, tree: &Tree, node: usize) -> Result<bool, AllocError>
    ensures { IfOk result (λ b. IsTrue b ↔ HasMisread tree.now node) }
{
    for child in children(tree, node) {
        if is_misread(alloc, tree, *child)? {
            return Ok(true);
        }
    }
    Ok(false)
}

impl IndexedTree<'_> {
    fn has_other_type(&self, node: usize) -> bool
        requires { IsIndexed self.now }
        ensures { IsTrue result ↔ HasOtherType self.now.setting self.now.tree.now node }
    {
        self.is_fmu(node) && !is_of_type(self.tree, node, "application/x-fmu-sharedlibrary")
            || self.is_binding(node)
                && !is_of_type(self.tree, node, "application/x-ssp-parameter-set")
    }

    fn reads_below_system(&self, node: usize, binding: usize) -> bool
        requires { IsIndexed self.now }
        ensures { IsTrue result ↔ ReadsBelowSystem self.now.tree.now node binding }
    {
        !lacks(self.tree, node, "source")
            && says(self.tree, node, "sourceBase", "component")
            && self.binds_system(binding)
    }

    // Whether the element is the ParameterMapping of a binding that counts.
    fn is_mapping_of(&self, node: usize, binding: usize) -> bool
        requires { IsIndexed self.now }
        ensures { IsTrue result ↔ IsMappingOf self.now.tree.now node binding }
    {
        is_named(self.tree, node, "ParameterMapping")
            && parent(self.tree, node) == Some(binding)
            && self.is_binding(binding)
            && !self.repeats_mapping(node)
    }

    fn component_has_no_source(&self, node: usize, no_path: bool) -> bool
        requires indexed { IsIndexed self.now }
        requires no_path { IsTrue no_path ↔ HasNoPath self.now.tree.now node }
        ensures { IsTrue result ↔ ComponentHasNoSource self.now.tree.now node }
    {
        self.is_component(node) && no_path
    }

    fn binding_has_no_source(&self, node: usize, no_path: bool) -> bool
        requires indexed { IsIndexed self.now }
        requires no_path { IsTrue no_path ↔ HasNoPath self.now.tree.now node }
        ensures { IsTrue result ↔ BindingHasNoSource self.now.tree.now node }
    {
        self.is_binding(node) && (no_path || self.reads_below_system(node, node))
    }

    fn mapping_has_no_source(&self, node: usize, no_path: bool) -> bool
        requires indexed { IsIndexed self.now }
        requires no_path { IsTrue no_path ↔ HasNoPath self.now.tree.now node }
        ensures { IsTrue result ↔ MappingHasNoSource self.now.tree.now node }
    {
        match parent(self.tree, node) {
            Some(binding) => {
                self.is_mapping_of(node, binding)
                    && (no_path || self.reads_below_system(node, binding))
            }
            None => false,
        }
    }

    fn has_no_source(&self, alloc: Global, node: usize) -> Result<bool, AllocError>
        requires { IsIndexed self.now }
        ensures { IfOk result (λ b. IsTrue b ↔ HasNoSource self.now.tree.now node) }
    {
        let no_path = has_no_path(alloc, self.tree, node)?;
        Ok(
            self.component_has_no_source(node, no_path)
                || self.binding_has_no_source(node, no_path)
                || self.mapping_has_no_source(node, no_path),
        )
    }

    fn is_incomplete_system(&self, node: usize) -> bool
        requires { IsIndexed self.now }
        ensures { IsTrue result ↔ IsIncompleteSystem self.now.tree.now node }
    {
        self.is_system(node) && lacks_text(self.tree, node, "name")
    }

    fn is_incomplete_component(&self, node: usize) -> bool
        requires { IsIndexed self.now }
        ensures { IsTrue result ↔ IsIncompleteComponent self.now.tree.now node }
    {
        self.is_component(node)
            && (lacks_text(self.tree, node, "name") || lacks(self.tree, node, "source"))
    }

    fn is_incomplete_connector(&self, node: usize) -> bool
        requires { IsIndexed self.now }
        ensures { IsTrue result ↔ IsIncompleteConnector self.now.tree.now node }
    {
        self.is_connector(node)
            && (lacks_text(self.tree, node, "name")
                || kind_of(self.tree, node).is_none()
                || self.repeats_connector(node))
    }

    fn is_incomplete_connection(&self, node: usize) -> bool
        requires { IsIndexed self.now }
        ensures { IsTrue result ↔ IsIncompleteConnection self.now.tree.now node }
    {
        self.is_connection(node)
            && (lacks(self.tree, node, "startConnector") || lacks(self.tree, node, "endConnector"))
    }

    fn is_incomplete_binding(&self, node: usize) -> bool
        requires { IsIndexed self.now }
        ensures { IsTrue result ↔ IsIncompleteBinding self.now.tree.now node }
    {
        self.is_binding(node)
            && lacks(self.tree, node, "source")
            && !has_child(self.tree, node, "ParameterValues")
    }

    fn is_incomplete_part(&self, node: usize) -> bool
        requires { IsIndexed self.now }
        ensures { IsTrue result ↔ IsIncompletePart self.now.tree.now node }
    {
        is_incomplete_root(self.tree, node)
            || self.is_incomplete_system(node)
            || self.is_incomplete_component(node)
    }

    fn is_incomplete_entry(&self, node: usize) -> bool
        requires { IsIndexed self.now }
        ensures { IsTrue result ↔ IsIncompleteEntry self.now.tree.now node }
    {
        self.is_incomplete_connector(node)
            || self.is_incomplete_connection(node)
            || self.is_incomplete_binding(node)
    }

    fn is_incomplete(&self, node: usize) -> bool
        requires { IsIndexed self.now }
        ensures { IsTrue result ↔ IsIncomplete self.now.tree.now node }
    {
        self.is_incomplete_part(node) || self.is_incomplete_entry(node)
    }

    fn is_model_exchange(&self, node: usize) -> bool
        requires { IsIndexed self.now }
        ensures { IsTrue result ↔ ViolatesStructure self.now.setting self.now.tree.now r.ModelExchange node }
    {
        self.is_fmu(node) && says(self.tree, node, "implementation", "ModelExchange")
    }

    // Whether it is one FMU too many, or its full name is too long.
    fn passes_limits(&self, node: usize) -> Result<bool, AllocError>
        requires { IsIndexed self.now }
        ensures { IfOk result (λ b. IsTrue b ↔
            ViolatesStructure self.now.setting self.now.tree.now r.TooManyComponents node) }
    {
        if self.is_too_many(node) {
            return Ok(true);
        }
        self.is_too_long(node)
    }

    // Whether the element is a connection with a transformation that doesn't read.
    fn has_misread_change(&self, alloc: Global, node: usize) -> Result<bool, AllocError>
        requires { IsIndexed self.now }
        ensures { IfOk result (λ b. IsTrue b ↔
            ViolatesStructure self.now.setting self.now.tree.now r.Transformation node) }
    {
        if !self.is_connection(node) {
            return Ok(false);
        }
        has_misread(alloc, self.tree, node)
    }

    /// Whether an element breaks a rule.
    fn breaks(&self, alloc: Global, rule: SystemRule, node: usize) -> Result<bool, AllocError>
        requires { IsIndexed self.now }
        ensures { IfOk result (λ b. IsTrue b ↔ ViolatesStructure self.now.setting self.now.tree.now rule node) }
    {
        match rule {
            SystemRule::Structure => Ok(node == 0 && is_other_structure(self.tree, node)),
            SystemRule::ElementTwice => Ok(self.is_part(node) && self.repeats_element(node)),
            SystemRule::OtherType => Ok(self.has_other_type(node)),
            SystemRule::NoSource => self.has_no_source(alloc, node),
            SystemRule::ModelExchange => Ok(self.is_model_exchange(node)),
            SystemRule::Incomplete => Ok(self.is_incomplete(node)),
            SystemRule::Transformation => self.has_misread_change(alloc, node),
            SystemRule::NoEnd => Ok(self.is_connection(node) && self.has_no_end(node)),
            SystemRule::WrongEnd => Ok(self.is_connection(node) && self.has_wrong_end(node)),
            SystemRule::TooManyComponents => self.passes_limits(node),
        }
    }

    /// The rule of the least number that an element breaks.
    fn broken_rule(&self, alloc: Global, node: usize) -> Result<Option<SystemRule>, AllocError>
        requires { IsIndexed self.now }
        ensures { IfOk result (λ found. MatchOption found
            (BreaksNoRule (ViolatesStructure self.now.setting self.now.tree.now) node)
            (IsLeast system_number (ViolatesStructure self.now.setting self.now.tree.now) node)) }
    {
        for rule in SYSTEM_RULES {
            if self.breaks(alloc, rule, node)? {
                return Ok(Some(rule));
            }
        }
        Ok(None)
    }

    /// The first element that breaks a rule, and the rule of the least number that it breaks.
    pub(crate) fn first_violation(
        &self,
        alloc: Global,
    ) -> Result<Option<(usize, SystemRule)>, AllocError>
        requires { IsIndexed self.now }
        ensures { IfOk result (λ found. MatchOption found
            (IsSoundIn self.now.setting self.now.tree.now)
            (λ violation. IsFirstStructureViolation self.now.setting self.now.tree.now violation.0 violation.1)) }
    {
        // Where there is no element, the root is missing.
        for node in 0..self.tree.len().max(1) {
            if let Some(rule) = self.broken_rule(alloc, node)? {
                return Ok(Some((node, rule)));
            }
        }
        Ok(None)
    }
}
