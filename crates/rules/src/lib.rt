// Checks 6, 7, 8 and 17 over a circuit: each node by itself, then the lowest node or table that breaks the rule.
#![tactic(auto)]

pub mod readers;
pub mod sources;
pub mod tables;
pub mod widths;
