//! Two threads in one pool of the test's own.
ghost use Rattle.std.specs.Prelude.{All};
ghost use Rattle.bq_board.specs.Seats.{IsSeatOf};

use super::holding::Holding;
use bq_load::{Pool, PoolSeat, Worked};
use std::alloc::{AllocError, Global};
use std::marker::{Send, Sync};
use std::sync::Wait;
use std::sync::atomic::{AtomicU64, Ordering};
use std::thread;
use std::thread::Threads;

/// Counts what the seats of a pool return.
#[derive(Drop)]
pub struct Returned {
    /// How many seats found all modules finished.
    all: AtomicU64,
    /// How often each module was returned, by its number.
    times: Vec<AtomicU64>,
}

impl Returned {
    pub fn new(alloc: Global, modules: usize) -> Result<Returned, AllocError> {
        let mut times = Vec::new(alloc);
        for _ in 0..modules {
            times.push(AtomicU64::new(0))?;
        }
        Ok(Returned {
            all: AtomicU64::new(0),
            times,
        })
    }

    fn add(&self, worked: &Worked) {
        if worked.all {
            self.all.fetch_add(1, Ordering::SeqCst);
        }
        for one in worked.modules.as_slice() {
            match self.times.get(one.module as usize) {
                Some(times) => {
                    times.fetch_add(1, Ordering::SeqCst);
                }
                None => {}
            }
        }
    }

    /// Whether so many seats found all modules finished, and each module was returned once.
    pub fn is_whole(&self, seats: u64) -> bool {
        let once = self
            .times
            .iter()
            .all(|times| times.load(Ordering::SeqCst) == 1);
        once && self.all.load(Ordering::SeqCst) == seats
    }
}

/// Where threads work, each at a seat of its own. What starts them is generic over it: a closure over a pool and its
/// seats would have two lifetimes.
pub trait Workplace: Sync {
    type Seat: Send;

    ghost sits: { Self → Self.Seat → Type 0 };

    /// Works at a seat, and counts what that returns, if it isn't refused memory.
    fn work_at<R: Wait>(
        &self,
        rt: &R,
        alloc: Global,
        seat: &mut Self::Seat,
        gate: &Holding,
        returned: &Returned,
    )
        requires { sits self.now seat.old }
        ensures { sits self.now seat.new };
}

impl<'a> Workplace for Pool<'a> {
    type Seat = PoolSeat<'a>;

    ghost sits = { λ pool seat. IsSeatOf pool.shared.board seat.place };

    fn work_at<R: Wait>(
        &self,
        rt: &R,
        alloc: Global,
        seat: &mut PoolSeat<'a>,
        gate: &Holding,
        returned: &Returned,
    ) {
        match self.work(rt, alloc, seat, gate) {
            Ok(worked) => returned.add(&worked),
            Err(_) => {}
        }
    }
}

/// Works at all seats, in two threads.
pub fn work_at_all<R: Threads + Wait + Sync, P: Workplace>(
    rt: &R,
    alloc: Global,
    place: &P,
    seats: &mut [P::Seat],
    gate: &Holding,
    returned: &Returned,
)
    requires { All (λ s. P.sits place.now s) seats.old }
    ensures { All (λ s. P.sits place.now s) seats.new }
{
    thread::for_each_mut(
        rt,
        seats,
        2,
        &|_, seat| place.work_at(rt, alloc, seat, gate, returned),
    );
}
