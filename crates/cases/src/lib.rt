//! Worked cases, each a row of one table, and the statement that all rows hold of the definitions.
#![tactic(auto)]

ghost use Rattle.cases.specs.Cases.{WorkedCases};

/// Every worked case holds.
pub fn worked_cases_hold()
    ensures { WorkedCases }
{}
