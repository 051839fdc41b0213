//! A gate for tests, which holds each of two workers until the other has come: both pass it only where they run side by side.

use crate::gate::Gate;
use crossbeam_utils::CachePadded;
use std::sync::atomic::{AtomicBool, Ordering};
use std::thread;

// How often a worker looks for the other at most.
const MOST_LOOKS: u32 = 1_000_000_000;

// How often it looks before it leaves its processor to others, so that the other may come where there is one processor.
const LOOKS_AT_ONCE: u32 = 4096;

/// A gate that holds two workers at their turn 0 until both have come there, and no other worker. One that waits in vain gives up in the
/// end, goes on, and the gate remembers it: so two workers that one thread runs in turn end, too.
#[derive(Drop)]
pub struct HoldGate {
    first: u32,
    second: u32,
    // Each worker writes its own flag while the other reads it, so they have cache lines of their own.
    first_came: CachePadded<AtomicBool>,
    second_came: CachePadded<AtomicBool>,
    gave_up: AtomicBool,
}

impl HoldGate {
    /// A gate that holds the workers of these two numbers. Neither has come yet.
    pub fn new(first: u32, second: u32) -> HoldGate {
        HoldGate {
            first,
            second,
            first_came: CachePadded::new(AtomicBool::new(false)),
            second_came: CachePadded::new(AtomicBool::new(false)),
            gave_up: AtomicBool::new(false),
        }
    }

    /// Whether a worker has waited in vain for the other.
    pub fn gave_up(&self) -> bool {
        self.gave_up.load(Ordering::SeqCst)
    }

    // A worker comes, and waits for the other.
    fn meet(&self, mine: &AtomicBool, other: &AtomicBool) {
        mine.store(true, Ordering::SeqCst);
        for look in 0..MOST_LOOKS {
            if other.load(Ordering::SeqCst) {
                return;
            }
            if look % LOOKS_AT_ONCE == LOOKS_AT_ONCE - 1 {
                thread::yield_now();
            }
        }
        self.gave_up.store(true, Ordering::SeqCst);
    }
}

impl Gate for HoldGate {
    fn before(&self, worker: u32, turn: u64) {
        if turn != 0 {
            return;
        }
        if worker == self.first {
            self.meet(&self.first_came, &self.second_came);
        } else if worker == self.second {
            self.meet(&self.second_came, &self.first_came);
        }
    }
}
