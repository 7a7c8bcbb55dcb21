//! A workspace and its schema come in; its modules go out, each with its outcome, and their fault lines and print
//! lines. The outcome of a BUILD file has its package.
//!
//! The promise: whatever the workspace, the schema and the number of steps that a module may take, they are those of
//! the definition (`specs/Loaded.antt`): the outcome of each module is that of the recursion along loads, where a
//! module evaluates to what its file means, with the modules that it loads, on a machine of its own
//! ([`load_one_thread`]). By several workers ([`load_with`]) they are the same.
//!
//! Each module is evaluated once, whatever loads it, and no call of a function goes along loads.
//!
//! In reading order:
//!
//! - `sources`: what is loaded;
//! - `outcome`: a module with its outcome;
//! - `loading`: what decides the outcomes of all modules;
//! - `places`: the places of names, where many are looked for;
//! - `exports`: what a module exports to the files that load it;
//! - `imports`: what a file gets of the modules that it loads;
//! - `gate`: who evaluates modules, and who is notified of each evaluation;
//! - `evaluation`: the evaluation of the statements of a file;
//! - `evaluator`: what a module evaluates to;
//! - `results`: the outcomes of modules, with the faults of those that load a failed one;
//! - `packages`: the packages of BUILD files;
//! - `lines`: the fault lines and the print lines of modules;
//! - `loaded`: all of it;
//! - `pool`, `opening`, `work`: the modules of a load graph, for threads of the caller's own ([`Pool`]);
//! - `load`: the loading of a workspace.
#![tactic(auto)]

mod evaluation;
mod evaluator;
mod exports;
mod gate;
mod imports;
mod lines;
mod load;
mod loaded;
mod loading;
mod opening;
mod outcome;
mod packages;
mod places;
mod pool;
mod results;
mod sources;
mod work;

pub use bq_load_module::{FailedModule, LoadedModule};
pub use gate::{Gate, GateWatch, OpenGate, Workers};
pub use load::{load_graph_with, load_one_thread, load_with, load_within};
pub use loaded::Loaded;
pub use loading::Loading;
pub use outcome::ModuleOutcome;
pub use pool::{Evaluated, Pool, PoolSeat, Worked};
pub use sources::Sources;
