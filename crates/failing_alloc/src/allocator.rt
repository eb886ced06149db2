//! The allocator.

use std::alloc::{AllocError, Allocator, Global};
use std::sync::atomic::AtomicU64;
use std::sync::atomic::Ordering::SeqCst;

/// An allocator that refuses one of the requests that it gets, counted from 1 by all threads together.
///
/// Collections take a `&` to it, which is `Copy` and may go to other threads. All other requests, and all memory that
/// is given back, go to the allocator within.
#[derive(Drop)]
pub struct FailingAlloc<A: Allocator = Global> {
    within: A,
    requests: Requests,
}

/// The requests for memory so far, and which of them is refused.
#[derive(Drop)]
struct Requests {
    seen: AtomicU64,
    /// From 1; 0 for none.
    refused: u64,
}

/// Where the count stops, so that it never wraps: there are fewer threads than numbers above it.
const MAX: u64 = 1 << 63;

impl Requests {
    /// Counts a request, and returns whether it is the one to refuse.
    fn refuses(&self) -> bool {
        if self.seen.load(SeqCst) >= MAX {
            return false;
        }
        self.seen.fetch_add(1, SeqCst).wrapping_add(1) == self.refused
    }
}

impl<A: Allocator> FailingAlloc<A> {
    /// Refuses the n-th request from now on, counted from 1, and none if `n` is 0.
    pub fn nth(within: A, n: u64) -> FailingAlloc<A> {
        FailingAlloc {
            within,
            requests: Requests {
                seen: AtomicU64::new(0),
                refused: n,
            },
        }
    }

    /// The number of requests that it got, the refused one included.
    pub fn requests(&self) -> u64 {
        self.requests.seen.load(SeqCst)
    }
}

unsafe impl<A: Allocator> Allocator for FailingAlloc<A> {
    ghost dealloc_token = { λ refusing τ p. A.dealloc_token refusing.within τ p };

    fn allocate(&self, size: usize, align: usize) -> Result<*mut u8, AllocError> {
        if self.requests.refuses() {
            return Err(AllocError);
        }
        self.within.allocate(size, align)
    }

    unsafe fn deallocate(&self, block: *mut u8, size: usize, align: usize) {
        self.within.deallocate(block, size, align);
    }
}
