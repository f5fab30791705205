/// The verdict on a trace.
#[derive(Clone, Copy, Debug, PartialEq, Eq)]
pub enum Verdict {
    /// No line breaks a rule.
    Yes,
    /// The line of this number, from 1 on, is the first that breaks a rule, and the rule with this number is the least
    /// that it breaks: 1 for the lines of ports, 2 for the order of instants and their end, 3 for the values of
    /// connected inputs, 4 for the ticks of constant Clocks.
    No { line: u64, rule: u8 },
}

/// The rule of the lines of ports.
pub(crate) const PORT_RULE: u8 = 1;

pub(crate) const ORDER_RULE: u8 = 2;

pub(crate) const SOURCE_RULE: u8 = 3;

pub(crate) const TICK_RULE: u8 = 4;
