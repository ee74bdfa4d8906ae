//! Values that are kept under keys.
ghost use Rattle.std.specs.Prelude.{◌≡◌, IfSome};

use np_base::NoMemory;
use std::alloc::Global;
use std::collections::HashMap;
use std::marker::Model;

/// What may be kept of a source: it is right of some sources, and of others not.
pub trait OfSource<S> {
    ghost IsRight: { S → Self → Type 0 };
}

/// Values that were found of a source, each under a key, so that they need not be found again. Several things may have one key,
/// since who asks compares what it is given: of the values of a key the last is found. All of them take no more than about so
/// many bytes: where a value does not fit beside the others, the others are forgotten. Contracts see the source, of which each
/// value is right.
pub struct Kept<S: Drop, V: Drop + OfSource<S>> {
    alloc: Global,
    source: S,
    most: usize,
    values: Vec<V>,
    // The last place among these of each key.
    places: HashMap<u64, usize>,
    bytes: usize,
}

impl<S: Drop, V: Drop + OfSource<S>> Model for Kept<S, V> {
    ghost use Rattle.std.specs.Prelude.{All};

    ghost Value = { S };

    ghost view = { λ k. k.source };

    ghost invariant = { λ k. All (V.IsRight k.source) k.values.items };
}

// Written out, so that letting one go is one call.
impl<S: Drop, V: Drop + OfSource<S>> Drop for Kept<S, V> {
    fn drop(self) {
        let Kept {
            alloc: _alloc,
            source: _source,
            most: _most,
            values: _values,
            places: _places,
            bytes: _bytes,
        } = self;
    }
}

impl<S: Drop, V: Drop + OfSource<S>> Kept<S, V> {
    /// None yet, with room for about so many bytes. It takes no memory.
    pub fn new(alloc: Global, source: S, most: usize) -> Kept<S, V>
        ensures { result ≡ source }
    {
        Kept {
            alloc,
            source,
            most,
            values: Vec::new(alloc),
            places: HashMap::new(alloc),
            bytes: 0,
        }
    }

    /// The source.
    pub fn source(&self) -> &S
        ensures { result.now ≡ self.now }
    {
        &self.source
    }

    /// The last value of a key, where it is kept.
    pub fn find(&self, key: u64) -> Option<&V>
        ensures { IfSome result (λ value. V.IsRight self.now value.now) }
    {
        let place = self.places.get(&key).copied()?;
        self.values.get(place)
    }

    /// Keeps a value of so many bytes under a key, unless it has more than there is room for. Where memory runs out, what was kept
    /// stays right, and the value may be lost.
    pub fn keep(&mut self, key: u64, value: V, bytes: usize) -> Result<(), NoMemory>
        requires { V.IsRight self.old value }
        ensures { self.new ≡ self.old }
    {
        if bytes > self.most {
            return Ok(());
        }
        if self.bytes.saturating_add(bytes) > self.most {
            self.forget();
        }
        self.bytes = self.bytes.saturating_add(bytes);
        self.places.insert(key, self.values.len())?;
        self.values.push(value)?;
        Ok(())
    }

    // Lets all go that is kept.
    fn forget(&mut self)
        ensures { self.new ≡ self.old }
    {
        self.values = Vec::new(self.alloc);
        self.places = HashMap::new(self.alloc);
        self.bytes = 0;
    }
}
