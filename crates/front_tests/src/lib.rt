//! What no contract says of names, keywords and the cutting of a text into tokens.
#![tactic(auto)]

#[cfg(test)]
mod keywords;
#[cfg(test)]
mod names;
#[cfg(test)]
mod texts;
