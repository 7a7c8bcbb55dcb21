//! The tests of what no program shows, and those that need a type of their own: hosts that note their calls, gates that hold
//! modules, and evaluators of load graphs. What a run shows in its bytes is in the rows in `tests/rows`.
//!
//! - `rows`: the tables in which the tests of tokens and directories are written;
//! - `bytes`, `takeable`, `tokens`, `values`, `directory`, `board`: shares of bytes, values that are taken out of what holds
//!   them, tokens and their places, values that no program makes, directories on a disk, and the board;
//! - `hosts`: which calls reach the host of a file;
//! - `load`: workspaces, and pools of threads;
//! - `workers`, `refused`: random load graphs by several workers, and workers that are refused memory.
#![tactic(auto)]

#[cfg(test)]
mod board;
#[cfg(test)]
mod bytes;
#[cfg(test)]
mod directory;
#[cfg(test)]
mod hosts;
#[cfg(test)]
mod load;
#[cfg(test)]
mod random;
#[cfg(test)]
mod refused;
#[cfg(test)]
mod rows;
#[cfg(test)]
mod takeable;
#[cfg(test)]
mod tokens;
#[cfg(test)]
mod values;
#[cfg(test)]
mod workers;
#[cfg(test)]
mod workspace;
