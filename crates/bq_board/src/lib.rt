//! Hands the modules of a load plan to seats, so that threads can load modules side by side.
//!
//! In: a plan, which says what each module loads. Out: for each seat, the modules that it won, and the parcels of what
//! they load. The promise: a module is won once, by one seat, when all that it loads is posted, and a parcel that is
//! fetched for a load belongs to the loaded module. It holds for every number of seats and every order of their steps,
//! with no lock: each step is one atomic step on one word.
//!
//! In reading order: `parcel` (what modules hand on), `board` and `opening` (the board, its words, slots and seats),
//! `view` (what contracts know of a seat), `claim`, `fetch`, `post`, `finish`, `done`, `close` (the calls), `steps` and
//! `rule` (the atomic steps, and the rule that each keeps), `laws` (that rule as users see it). Plans, and the load
//! graphs that they are made of, are those of bq_board_plan.
#![tactic(auto)]

mod board;
mod claim;
mod close;
mod done;
mod fetch;
mod finish;
mod laws;
mod opening;
mod parcel;
mod post;
mod rule;
mod steps;
mod view;

pub use board::{Board, Seat};
pub use bq_board_plan::{
    Graph, MAX_LOAD_DEPTH, Order, Plan, PlanErr, cut_is_plan, cyclic_is_a_path,
    cyclic_loads_a_cyclic, cyclic_or_too_deep, cyclic_reaches_a_cycle, deep_enough,
    edges_are_loads, loads_of_too_deep, starts_are_sums, too_deep_is_a_path, too_deep_loads_a_deep,
};
pub use claim::Claim;
pub use laws::{done_law, edge_law, load_law, module_law, note_law, owner_law, seat_law, slot_law};
pub use opening::MAX_SEATS;
pub use parcel::Parcel;
pub use view::View;
