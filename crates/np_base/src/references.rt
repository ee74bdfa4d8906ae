//! References to items of lists.
ghost use Rattle.std.specs.Prelude.{◌≡◌, ◌++◌, map, OnOk};

use crate::no_memory::NoMemory;

/// Puts references to the items last, in their order. Want of memory is the one refusal, and some of them may then have been put.
pub fn push_references<'a, T>(references: &mut Vec<&'a T>, items: &'a [T]) -> Result<(), NoMemory>
    ensures { OnOk result (map (λ item. item.now) references.new.items
        ≡ map (λ item. item.now) references.old.items ++ items.now) }
{
    for item in items {
        references.push(item)?;
    }
    Ok(())
}
