//! The element tree of a document of the simulator, an XML 1.0 subset, or the one rule that the bytes break and its place.
#![tactic(auto)]

mod builder;
mod element;
mod path;
mod place;
mod refusal;
mod rule;
mod tree;

pub use builder::read_tree;
pub use doc_events::{DocError, Rule as DocumentRule};
pub use place::Place;
pub use refusal::Refusal;
pub use rule::{
    DESCRIPTION_RULES, DescriptionRule, FlatteningRule, NestingRule, PARAMETER_RULES,
    ParameterRule, Rule, SYSTEM_RULES, SystemRule,
};
pub use tree::Tree;
