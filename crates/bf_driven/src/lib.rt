//! A case run by ranks on one thread, and the leaves that it ends with.
#![tactic(auto)]

mod driven;
pub mod laws;
mod parcels;
#[cfg(test)]
mod tests;

pub use driven::run;
pub use parcels::leaves;
