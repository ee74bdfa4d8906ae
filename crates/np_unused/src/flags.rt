//! Flags by two numbers.
ghost use Rattle.std.specs.Prelude.{◌≡◌, ◌==◌, ◌<◌, ◌&&◌, ◌||◌, ℕ, false, OnOk, length};
ghost use Rattle.np_unused.specs.steps.Known.{flag_at, flag_in, flag_of};

use np_base::NoMemory;
use std::alloc::Global;

/// Flags by the place of a policy and by that of a rule in it. Where no flag was set, there is none.
#[derive(Drop)]
pub struct Flags {
    rows: Vec<Vec<bool>>,
}

impl Flags {
    /// No flags. It takes no memory.
    pub(crate) fn none(alloc: Global) -> Flags
        ensures { (policy place : ℕ) → flag_at result policy place ≡ false }
    {
        Flags {
            rows: Vec::new(alloc),
        }
    }

    /// Whether a flag is set.
    pub(crate) fn has(&self, policy: u32, place: u64) -> bool
        ensures { result ≡ flag_at self.now policy place }
    {
        match self.rows.get(policy as usize) {
            Some(row) => row.get(place as usize).copied().unwrap_or(false),
            None => false,
        }
    }

    /// Sets a flag.
    pub(crate) fn set(&mut self, alloc: Global, policy: u32, place: u64) -> Result<(), NoMemory>
        ensures { OnOk result ((p n : ℕ) → flag_at self.new p n
            ≡ (flag_at self.old p n || (p == policy && n == place))) }
    {
        make_rows(alloc, &mut self.rows, policy)?;
        set_in_row(&mut self.rows[policy as usize], place)
    }
}

// Makes a row for a policy, and for all those before it.
fn make_rows(alloc: Global, rows: &mut Vec<Vec<bool>>, policy: u32) -> Result<(), NoMemory>
    ensures there { OnOk result (policy < length rows.new.items) }
    ensures same { (p n : ℕ) → flag_in rows.new.items p n ≡ flag_in rows.old.items p n }
{
    while rows.len() <= policy as usize {
        rows.push(Vec::new(alloc))?;
    }
    Ok(())
}

// Sets a flag in a row.
fn set_in_row(row: &mut Vec<bool>, place: u64) -> Result<(), NoMemory>
    ensures { OnOk result ((n : ℕ) → flag_of row.new.items n ≡ (flag_of row.old.items n || n == place)) }
{
    make_places(row, place)?;
    row[place as usize] = true;
    Ok(())
}

// Makes a flag, which is not set, at a place and at all those before it that have none.
fn make_places(row: &mut Vec<bool>, place: u64) -> Result<(), NoMemory>
    ensures there { OnOk result (place < length row.new.items) }
    ensures same { (n : ℕ) → flag_of row.new.items n ≡ flag_of row.old.items n }
{
    while row.len() as u64 <= place {
        row.push(false)?;
    }
    Ok(())
}
