//! Admission to the desk's queue, one seat at a time.

use crossbeam_utils::Backoff;
use crossbeam_utils::sync::EventCount;
use std::sync::Wait;
use std::sync::atomic::Ordering::SeqCst;
use std::sync::atomic::{AtomicBool, AtomicU64};
use std::thread;

/// The number of times that a seat looks whether it is admitted before it sleeps.
const FEW_LOOKS: u32 = 30;

/// The number of these looks that follow each other within some microseconds, as long as a few turns take. Before each
/// of the others any thread that waits for the processor goes on.
const FIRST_LOOKS: u32 = 7;

/// Admits one seat at a time to the queue. A seat that comes while another is admitted looks a few times and then
/// sleeps. Seats are admitted in no certain order.
///
/// It affects time alone, since a seat takes its turn by the flag of its ticket. With more seats in the queue each turn
/// goes to a certain thread. The book has to be brought to that thread, and it has to be woken if it fell asleep, turn
/// after turn. Here the seat that looks first is admitted, most often the one that left last, and the others come in
/// between. A seat that leaves calls a sleeper only if nobody is looking: a sleeper called at each turn would find
/// another seat admitted again.
#[derive(Drop)]
pub(crate) struct Door {
    /// Whether a seat is admitted.
    taken: AtomicBool,
    /// The number of seats that are awake here and look.
    looking: AtomicU64,
    /// Whether a sleeper was called and has not looked yet.
    called: AtomicBool,
    sleepers: EventCount,
}

impl Door {
    pub(crate) fn new() -> Door {
        Door {
            taken: AtomicBool::new(false),
            looking: AtomicU64::new(0),
            called: AtomicBool::new(false),
            sleepers: EventCount::new(),
        }
    }

    /// Waits until the seat is admitted to the queue.
    pub(crate) fn come_in(&self, rt: &impl Wait) {
        if self.lets_in() {
            return;
        }
        self.looking.fetch_add(1, SeqCst);
        for _ in rt.forever() {
            if self.lets_in_soon() {
                break;
            }
            self.sleep(rt);
        }
        self.looking.fetch_sub(1, SeqCst);
    }

    /// Looks once. Returns whether no seat was admitted, so that this one is now.
    fn lets_in(&self) -> bool {
        !self.taken.load(SeqCst) && !self.taken.swap(true, SeqCst)
    }

    /// Looks a few times, at growing intervals, and returns whether the seat is admitted.
    fn lets_in_soon(&self) -> bool {
        let backoff = Backoff::new();
        for look in 0..FEW_LOOKS {
            if self.lets_in() {
                return true;
            }
            backoff.spin();
            if look >= FIRST_LOOKS {
                thread::yield_now();
            }
        }
        false
    }

    /// Sleeps until called, unless admission is open by now.
    ///
    /// It announces its sleep, takes back any call and is no longer counted before it looks. So a seat that leaves
    /// after that look calls again. Once it is counted again it takes back the call that woke it. So the next seat that
    /// leaves with nobody looking calls the next sleeper.
    fn sleep(&self, rt: &impl Wait) {
        let sleep = self.sleepers.prepare_wait();
        self.called.store(false, SeqCst);
        self.looking.fetch_sub(1, SeqCst);
        if self.taken.load(SeqCst) {
            sleep.wait(rt);
        } else {
            drop(sleep);
        }
        self.looking.fetch_add(1, SeqCst);
        self.called.store(false, SeqCst);
    }

    /// Leaves the queue. With nobody looking it calls a sleeper, unless one is called already. A seat that looks is
    /// admitted, or looks once more before it sleeps.
    pub(crate) fn go_out(&self) {
        self.taken.store(false, SeqCst);
        if self.looking.load(SeqCst) == 0 && !self.called.swap(true, SeqCst) {
            self.sleepers.notify_one();
        }
    }
}
