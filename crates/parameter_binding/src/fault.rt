ghost use Rattle.std.specs.Prelude.{◌≡◌, ◌⊎◌, false, Option, IsTrue};
ghost use Rattle.doc_tree.specs.declared.rule.ParameterRule.{ParameterRule};
ghost use Rattle.parameter_binding.specs.Rules.{Place};
ghost use Rattle.parameter_binding.specs.Walk.{CoveredBy, IsUpTo, place_of};

use doc_tree::{ParameterRule, Rule};

/// An element of a set or of a mapping, and the rule that it breaks.
#[derive(Clone, Copy, Debug, PartialEq, Eq)]
pub(crate) struct Fault {
    pub(crate) binding: usize,
    pub(crate) file: usize,
    pub(crate) in_mapping: bool,
    pub(crate) node: usize,
    pub(crate) rule: ParameterRule,
}

impl Fault {
    /// Whether it isn't after the other in the order of refusals: sets before mappings, then by element and rule.
    pub(crate) fn is_up_to(self, other: Fault) -> bool
        ensures first { IsTrue result → IsUpTo (place_of self) self.rule
            (place_of other) other.rule }
        ensures second { result ≡ false → IsUpTo (place_of other) other.rule
            (place_of self) self.rule }
    {
        if self.binding != other.binding {
            return self.binding < other.binding;
        }
        if self.in_mapping != other.in_mapping {
            return other.in_mapping;
        }
        if self.node != other.node {
            return self.node < other.node;
        }
        Rule::Parameters(self.rule).number() <= Rule::Parameters(other.rule).number()
    }
}

/// The one that comes first.
pub(crate) fn first_of(one: Option<Fault>, other: Option<Fault>) -> Option<Fault>
    ensures either { (result ≡ one) ⊎ (result ≡ other) }
    ensures covers { (p : Place) (rule : ParameterRule) → CoveredBy one p rule ⊎
        CoveredBy other p rule → CoveredBy result p rule }
{
    match (one, other) {
        (Some(a), Some(b)) => Some(if a.is_up_to(b) { a } else { b }),
        (None, other) => other,
        (one, None) => one,
    }
}
