//! What neither a clause of the program says nor the rows in `tests/rows` show: devices that give little or fail, the status and error
//! line of each ending, sessions that answer in turn, workers that evaluate at once, input that never ends, the seed of a run, and what the
//! words of a command line ask for.
//!
//! They stand in a crate of their own, since they are proved after all crates below, and the tests of those need not wait. They are in one
//! crate, since each crate whose tests run the program proves its link once more.
//!
//! Their tables are constants. What owns devices or a workspace is one function for all of them, which lends them to what makes a call:
//! the prover follows each way out with all that a function owns.
#![tactic(auto)]

#[cfg(test)]
mod command_lines;
#[cfg(test)]
mod devices;
#[cfg(test)]
mod endless;
#[cfg(test)]
mod jobs;
#[cfg(test)]
mod options;
#[cfg(test)]
mod reloads;
#[cfg(test)]
mod runs;
#[cfg(test)]
mod seeds;
#[cfg(test)]
mod statuses;
#[cfg(test)]
mod workspaces;
