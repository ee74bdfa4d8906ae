//! A list that contracts see as a list.
ghost use Rattle.std.specs.Prelude.{◌≡◌, [], ◌∷◌, ◌++◌, IfOk, OnOk, OnErr};

use crate::no_memory::NoMemory;
use crate::try_copy::TryCopy;
use std::alloc::Global;
use std::marker::Model;

/// A list that owns its items. Contracts see it as the list of its items, each as its own value, so equal lists
/// are equal values, wherever they lie in memory.
#[derive(Debug, Drop)]
pub struct Seq<T> {
    items: Vec<T>,
}

impl<T> Model for Seq<T> {
    ghost use Rattle.std.specs.Prelude.{List};

    ghost Value = { List T };

    ghost view = { λ s. s.items.items };
}

impl<T> Seq<T> {
    /// The empty list. It takes no memory.
    pub fn new(alloc: Global) -> Seq<T>
        ensures { result ≡ [] }
    {
        Seq {
            items: Vec::new(alloc),
        }
    }

    /// The list of a `Vec`'s items, without a copy.
    pub fn from_vec(items: Vec<T>) -> Seq<T>
        ensures { result ≡ items.items }
    {
        Seq { items }
    }

    /// The items as a `Vec`, without a copy.
    pub fn into_vec(self) -> Vec<T>
        ensures { result.items ≡ self }
    {
        let Seq { items } = self;
        items
    }

    /// The allocator that the list was made with, for copies in the same memory.
    pub fn allocator(&self) -> Global {
        *self.items.allocator()
    }

    /// Puts a value last. On `NoMemory` the list is as before, and the value is dropped.
    pub fn push(&mut self, value: T) -> Result<(), NoMemory>
    where
        T: Drop,
        ensures ok { OnOk result (self.new ≡ self.old ++ value ∷ []) }
        ensures err { OnErr result (self.new ≡ self.old) }
    {
        self.items.push(value)?;
        Ok(())
    }

    /// The items, lent.
    pub fn items(&self) -> &[T]
        ensures { result.now ≡ self.now }
    {
        &self.items
    }
}

impl<T: TryCopy + Drop> TryCopy for Seq<T> {
    fn try_copy(&self, alloc: Global) -> Result<Seq<T>, NoMemory> {
        Ok(Seq::from_vec(copy_all(alloc, self.items())?))
    }
}

// Copies of the items, in order.
fn copy_all<T: TryCopy + Drop>(alloc: Global, items: &[T]) -> Result<Vec<T>, NoMemory>
    ensures { IfOk result (λ made. made.items ≡ items.now) }
{
    let mut copies = Vec::new(alloc);
    for item in items {
        copies.push(item.try_copy(alloc)?)?;
    }
    Ok(copies)
}
