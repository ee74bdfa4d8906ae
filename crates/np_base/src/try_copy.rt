//! Copies that take memory.
ghost use Rattle.std.specs.Prelude.{◌≡◌, IfOk};

use crate::no_memory::NoMemory;
use std::alloc::Global;

/// A value that can be copied where the system gives the memory.
pub trait TryCopy: Sized {
    /// An equal value. Want of memory is the one refusal.
    fn try_copy(&self, alloc: Global) -> Result<Self, NoMemory>
        ensures { IfOk result (λ made. made ≡ self.now) };
}

impl<T: TryCopy> TryCopy for Option<T> {
    fn try_copy(&self, alloc: Global) -> Result<Option<T>, NoMemory> {
        match self {
            Some(value) => Ok(Some(value.try_copy(alloc)?)),
            None => Ok(None),
        }
    }
}
