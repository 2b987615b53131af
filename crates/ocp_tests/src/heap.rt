//! An allocator that gives out a number of blocks, and then refuses.

ghost use Rattle.std.specs.Prelude.{◌≡◌, IfSome};

use std::alloc::{AllocError, Allocator};
use std::sync::atomic::{AtomicU64, Ordering};

/// Passes each growth on to the inner allocator while `left` is above 0, and refuses it else. What
/// was given out is always taken back.
#[derive(Drop)]
pub struct Refusing<B> {
    inner: B,
    left: AtomicU64,
}

impl<B> Refusing<B> {
    /// An allocator that gives out `left` blocks.
    pub fn new(inner: B, left: u64) -> Self {
        Refusing {
            inner,
            left: AtomicU64::new(left),
        }
    }

    /// From now on it gives out `left` blocks.
    pub fn allow(&self, left: u64) {
        self.left.store(left, Ordering::SeqCst);
    }

    // The inner allocator, unless this growth is to be refused.
    fn chosen(&self) -> Option<&B>
        ensures { IfSome result (λ h. h.now ≡ self.now.inner) }
    {
        match self.left.load(Ordering::SeqCst) {
            0 => None,
            left => {
                self.left.store(left - 1, Ordering::SeqCst);
                Some(&self.inner)
            }
        }
    }
}

unsafe impl<B: Allocator> Allocator for Refusing<B> {
    ghost dealloc_token = { λ heap ty ptr. B.dealloc_token heap.inner ty ptr };

    fn allocate(&self, size: usize, align: usize) -> Result<*mut u8, AllocError> {
        match self.chosen() {
            Some(alloc) => alloc.allocate(size, align),
            None => Err(AllocError),
        }
    }

    unsafe fn deallocate(&self, ptr: *mut u8, size: usize, align: usize) {
        self.inner.deallocate(ptr, size, align);
    }
}
