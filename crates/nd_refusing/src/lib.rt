//! An allocator for tests that refuses chosen requests for memory, and counts the bytes of those that it passes on.
#![tactic(auto)]

use std::alloc::{AllocError, Allocator};
use std::cell::Cell;

/// No request is refused.
const NONE: u64 = 0;

/// The counts of an allocator. A sum that would pass the greatest number of 64 bits stays there.
#[derive(Clone, Copy)]
struct Counts {
    /// The number of the request that is refused, counted from 1 at the next one, or `NONE`.
    left: u64,
    /// The number of requests passed on.
    requests: u64,
    /// The number of bytes of these requests in all.
    bytes: u64,
    /// The number of these bytes that were not returned.
    held: u64,
}

/// Passes requests on to another allocator, counts them, and refuses one of them on demand.
pub struct Refusing<B: Allocator> {
    inner: B,
    counts: Cell<Counts>,
}

impl<B: Allocator> Refusing<B> {
    /// Returns an allocator that refuses nothing yet.
    pub fn new(inner: B) -> Refusing<B> {
        Refusing {
            inner,
            counts: Cell::new(Counts {
                left: NONE,
                requests: 0,
                bytes: 0,
                held: 0,
            }),
        }
    }

    /// Refuses the request of this number from now on, counted from 1, and no other. 0 refuses none.
    pub fn refuse(&self, number: u64) {
        let mut counts = self.counts.get();
        counts.left = number;
        self.counts.set(counts);
    }

    /// Returns true if a request that will be refused hasn't been made yet.
    pub fn is_waiting(&self) -> bool {
        self.counts.get().left != NONE
    }

    /// Returns the number of requests passed on.
    pub fn requests(&self) -> u64 {
        self.counts.get().requests
    }

    /// Returns the number of bytes of these requests in all. A block that grows asks for its new length.
    pub fn bytes(&self) -> u64 {
        self.counts.get().bytes
    }

    /// Returns the number of these bytes that were not returned. It is too great if the inner allocator refused a request.
    pub fn held(&self) -> u64 {
        self.counts.get().held
    }
}

impl<B: Allocator> Drop for Refusing<B> {
    fn drop(self) {
        let Self {
            inner: _,
            counts: _,
        } = self;
    }
}

/// Counts a block of `size` bytes that is returned.
fn give_back(counts: &Cell<Counts>, size: usize) {
    let mut after = counts.get();
    after.held = after.held.saturating_sub(size as u64);
    counts.set(after);
}

/// Returns true if this request for `size` bytes is refused, and counts it.
fn is_refused(counts: &Cell<Counts>, size: usize) -> bool {
    let mut after = counts.get();
    let refused = after.left == 1;
    after.left = after.left.saturating_sub(1);
    if !refused {
        after.requests = after.requests.saturating_add(1);
        after.bytes = after.bytes.saturating_add(size as u64);
        after.held = after.held.saturating_add(size as u64);
    }
    counts.set(after);
    refused
}

unsafe impl<B: Allocator> Allocator for Refusing<B> {
    ghost dealloc_token = { λ heap ty ptr. B.dealloc_token heap.inner ty ptr };

    fn allocate(&self, size: usize, align: usize) -> Result<*mut u8, AllocError> {
        if is_refused(&self.counts, size) {
            return Err(AllocError);
        }
        self.inner.allocate(size, align)
    }

    unsafe fn deallocate(&self, ptr: *mut u8, size: usize, align: usize) {
        give_back(&self.counts, size);
        self.inner.deallocate(ptr, size, align);
    }
}
