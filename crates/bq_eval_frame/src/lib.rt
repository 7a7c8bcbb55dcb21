//! Frames: the values of the names of a function, of a file or of a comprehension, by slot.
//!
//! Slots and values come in; what is in a slot goes out.
//!
//! The promise: a [`Frame`] is one of `bq_eval_spec`, unless memory runs out (`specs/Slots.antt`). A new one is
//! empty, [`Frame::fill`] changes one slot alone, and [`Frame::inside`], the frame of a comprehension, begins with the
//! values of the frame around it, which it only reads.
//!
//! In reading order:
//!
//! - `slot_list`: a list of slots;
//! - `sparse`: slots of which few are filled;
//! - `inner`: what a comprehension binds, over the slots of the function that it is in;
//! - `frame`: these as one frame.
#![tactic(auto)]

mod frame;
mod inner;
mod slot_list;
mod sparse;

pub use frame::Frame;
