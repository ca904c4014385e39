//! Policies: which tables and columns an ENRICH takes, by the text of a policy.
#![tactic(auto)]

mod document;
mod policy;
#[cfg(test)]
mod tests;
mod texts;

pub use document::read_policy;
pub use policy::PolicyText;
