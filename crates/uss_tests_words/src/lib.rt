//! Tests of the words that the suppliers and the discovery service share: outlines, volumes, references, details and rules, the choice of
//! an alternative, outcomes, and scripts. All of it goes through the public calls.
//!
//! | Module | Tests |
//! |---|---|
//! | `outlines` | `uss_shape`: regions in the plane, and where two of them meet |
//! | `volumes` | `uss_vol4`: which volumes are made, and which share |
//! | `references` | `uss_intent`: texts, identifiers, tags, references and calls |
//! | `rules` | `uss_event`: details, tables of rules, transitions and verdicts |
//! | `choices` | `uss_plan`: which alternative is chosen |
//! | `outcomes` | `uss_outcome`: how an outcome is printed |
//! | `scripts` | `uss_text`: scripts that are read, and replies that are written |
//!
//! Several of them use `fixtures`.
#![tactic(auto)]

#[cfg(test)]
mod choices;
#[cfg(test)]
mod fixtures;
#[cfg(test)]
mod outcomes;
#[cfg(test)]
mod outlines;
#[cfg(test)]
mod references;
#[cfg(test)]
mod rules;
#[cfg(test)]
mod scripts;
#[cfg(test)]
mod volumes;
