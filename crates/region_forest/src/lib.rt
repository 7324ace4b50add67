//! Region trees in which one can go up (OOPSLA 2013), as finders of earlier operations ask for them.
#![tactic(auto)]

mod forest;
mod standing;
mod standings;
#[cfg(test)]
mod tests;

pub use forest::Forest;
