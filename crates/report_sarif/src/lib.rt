//! A report in SARIF 2.1.0 (OASIS, Static Analysis Results Interchange Format).
#![tactic(auto)]

mod artifact;
mod envelope;
mod result;
mod sarif;
mod words;

pub use artifact::Artifact;
pub use sarif::sarif_text;
