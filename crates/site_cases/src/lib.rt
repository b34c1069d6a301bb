//! Worked cases of sites, each a row of one table, and the statement that all rows hold of the definitions.
#![tactic(auto)]

ghost use Rattle.site_cases.specs.Cases.{SiteCases};

/// Every worked case of a site holds.
pub fn site_cases_hold()
    ensures { SiteCases }
{}
