//! What no contract says of the parts of the analysis: points-to sets and their constraints, clusters, and artifacts as
//! bytes.
#![tactic(auto)]

#[cfg(test)]
mod facts;
#[cfg(test)]
mod joined;
#[cfg(test)]
mod points;
#[cfg(test)]
mod spellings;
