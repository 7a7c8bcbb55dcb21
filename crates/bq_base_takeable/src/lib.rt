//! A value comes in; those who share what holds it may take it out, one of them at a time.
#![tactic(auto)]

mod takeable;

pub use takeable::Takeable;
