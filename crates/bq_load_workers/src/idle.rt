//! What a worker does while it finds nothing to try: it sleeps until there is something new.
//!
//! No contract speaks of it, since a worker owes no return. Why no worker keeps sleeping while there is work: each
//! event is counted before sleepers are woken, a worker reads the count before it looks at the lists, and it falls
//! asleep only if the count is still the same. So an event that it didn't see, since it had looked already, keeps it
//! awake. Events are: a list has more candidates than its owner takes next; all modules are finished; all workers are
//! to stop. A list with one candidate alone needs none, since its owner takes that one right away.

use std::sync::Wait;
use std::sync::atomic::{AtomicU64, Ordering};
use std::thread;

/// For how many turns a worker looks again before it sleeps: a few microseconds, in which short modules end.
const TURNS_AWAKE: u32 = 32;

/// Counts what sleeping workers wait for.
#[derive(Drop)]
pub(crate) struct Idle {
    /// How many events there were.
    pub(crate) events: AtomicU64,
    sleepers: AtomicU64,
}

impl Idle {
    pub(crate) fn new() -> Idle {
        Idle {
            events: AtomicU64::new(0),
            sleepers: AtomicU64::new(0),
        }
    }

    /// Counts an event, and wakes one sleeper if anybody sleeps. A worker that falls asleep just now counts itself first,
    /// so either it is seen here, or it sees this event.
    pub(crate) fn tell_one(&self) {
        self.events.fetch_add(1, Ordering::SeqCst);
        if self.sleepers.load(Ordering::SeqCst) > 0 {
            self.events.wake_one();
        }
    }

    /// Counts an event, and wakes all sleepers, likewise.
    pub(crate) fn tell_all(&self) {
        self.events.fetch_add(1, Ordering::SeqCst);
        if self.sleepers.load(Ordering::SeqCst) > 0 {
            self.events.wake_all();
        }
    }

    /// Lets a worker wait that found nothing for `turns` turns, and knew of `seen` events before it looked: it yields,
    /// and after some turns sleeps until the next event.
    pub(crate) fn wait<R: Wait>(&self, rt: &R, seen: u64, turns: u32) {
        if turns < TURNS_AWAKE {
            thread::yield_now();
            return;
        }
        self.sleepers.fetch_add(1, Ordering::SeqCst);
        self.events.park(rt, (seen & u32::MAX as u64) as u32);
        self.sleepers.fetch_sub(1, Ordering::SeqCst);
    }
}
