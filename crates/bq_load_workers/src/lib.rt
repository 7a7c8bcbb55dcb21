//! The outcomes of all modules of a load graph, by several workers.
//!
//! In: a load graph, what evaluates a module with the values of what it loads, and a number of workers. Out: the
//! outcome of each module. The promise: for every number of workers and every order of their steps, they are the
//! outcomes that the recursion along loads defines, as by one thread.
//!
//! The workers share a board (bq_board), which gives each module to one of them, once, when all that it loads is there.
//! The parcel along an edge is the loaded module's value, if it has one. Which module a worker tries next depends on
//! lists of candidates, from which idle workers steal; no promise rests on them. Each worker is a thread whose stack is
//! asked for by its size, since evaluation may take more than a thread has by default. What no worker brought, since
//! none could be started or a list couldn't grow, is evaluated at the end, in one more such thread, or if there is none
//! by the calling thread.
//!
//! In reading order: `import` (the parcels), `pool` (the board and its seats), `opening` (how a pool begins),
//! `find` (the outcome of a module that was won), `bring` (a module from its claim to its end), `candidates` (what to try next),
//! `idle` (what it does while there is nothing), `work` (what a worker does), `threads` (workers in threads of their own), `evaluation` (what is left, one after another), `load` (all workers, and what is left), `close` (the end of a pool).
#![tactic(auto)]

mod bring;
mod candidates;
mod close;
mod evaluation;
mod find;
mod idle;
mod import;
mod load;
mod opening;
mod pool;
mod threads;
mod work;

pub use evaluation::{GraphEvaluation, completed};
pub use import::{Base, Import};
pub use load::outcomes_by_workers;
pub use opening::MAX_WORKERS;
pub use pool::{FinishedModule, WorkDone, WorkerPool, WorkerSeat};
pub use threads::EVALUATION_STACK;
