//! What is looked at of loops that are to be index launches (Regent, SC 2015), in the checker's scopes.
#![tactic(auto)]

mod apart;
mod kinds;
mod uses;
mod view;

pub use view::loop_view;
