//! The worked cases, of the rules.
#![tactic(auto)]

ghost use Rattle.worked_cases.specs.Cases.{WorkedCases};

/// The worked cases hold of the rules, all of them together. It does nothing: what it says is its contract.
pub fn worked_cases()
    ensures { WorkedCases }
{}
