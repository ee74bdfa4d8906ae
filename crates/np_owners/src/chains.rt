//! Chains of owners, walked step by step.
ghost use Rattle.std.specs.Prelude.{◌≡◌, ◌<◌, ℕ, length, map, ◌||◌, All, IfOk};
ghost use Rattle.np_owners.specs.Chains.{IsChains, places_of_owners, up, top, owns_itself, first_cycle, is_at_or_over, is_marked, is_over_some};

use np_base::NoMemory;
use std::alloc::Global;
use std::marker::Model;

/// What stands directly over each place of a list, if anything does. Contracts see one entry for each place, from 0,
/// in the order of the list: the place directly over it, or `None`. It is a place of the list too, and a chain of
/// owners may lead back to where it began.
#[derive(Debug, Drop)]
pub struct Chains {
    ups: Vec<Option<u32>>,
}

impl Model for Chains {
    ghost use Rattle.std.specs.Prelude.{List, Option, ℕ};
    ghost use Rattle.np_owners.specs.Chains.{IsChains};

    ghost Value = { List (Option ℕ) };

    ghost view = { λ chains. chains.ups.items };

    ghost invariant = { λ chains. IsChains chains.ups.items };
}

impl Chains {
    /// The chains of a list that says for each place, from 0, what stands directly over it: a place of the list, of
    /// which there are fewer than 2³².
    pub fn of(ups: Vec<Option<u32>>) -> Chains
        requires { IsChains ups.items }
        ensures { result ≡ ups.items }
    {
        Chains { ups }
    }

    /// How many places there are.
    pub fn len(&self) -> u32
        ensures { result ≡ length self.now }
    {
        self.ups.len() as u32
    }

    /// The place directly over this one, or `None` where nothing is.
    pub fn above(&self, place: u32) -> Option<u32>
        requires { place < length self.now }
        ensures { result ≡ up self.now place }
    {
        self.ups[place as usize]
    }

    /// The first place that is among its own owners, or `None` where no chain leads back. It takes no memory.
    pub fn first_cycle(&self) -> Option<u32>
        ensures { result ≡ first_cycle self.now }
    {
        for place in 0..self.ups.len() as u32 {
            if comes_back(&self.ups, place) {
                return Some(place);
            }
        }
        None
    }

    /// The last owner of each place, or the place itself where nothing stands over it, in the order of the places.
    /// Where a chain leads back, it is the place that as many steps as there are places lead to.
    pub fn tops(&self, alloc: Global) -> Result<Vec<u32>, NoMemory>
        ensures exact { IfOk result (λ made. made.items ≡ map (top self.now) (places_of_owners self.now)) }
        ensures within { IfOk result (λ made. All (λ place. place < length self.now) made.items) }
    {
        let mut made = Vec::with_capacity(alloc, self.ups.len())?;
        for place in 0..self.ups.len() as u32 {
            made.push(climb(&self.ups, place))?;
        }
        Ok(made)
    }

    /// For each place, in order, whether it is a start or stands over one, where `starts` says of each place whether
    /// it is a start.
    pub fn over_some(&self, alloc: Global, starts: &[bool]) -> Result<Vec<bool>, NoMemory>
        requires { length starts.now ≡ length self.now }
        ensures { IfOk result (λ made. made.items ≡ map (is_over_some self.now starts.now) (places_of_owners self.now)) }
    {
        let mut marks = vec![in alloc; false; self.ups.len()]?;
        for (place, is_start) in starts.iter().enumerate() {
            if *is_start {
                mark_chain(&self.ups, place as u32, &mut marks);
            }
        }
        Ok(marks)
    }
}

// Whether a place is among its own owners.
fn comes_back(ups: &[Option<u32>], place: u32) -> bool
    requires chains { IsChains ups.now }
    requires within { place < length ups.now }
    ensures { result ≡ owns_itself ups.now place }
{
    let mut at = place;
    for _owner in 0..ups.len() {
        let Some(above) = ups[at as usize] else {
            return false;
        };
        if above == place {
            return true;
        }
        at = above;
    }
    false
}

// The last owner of a place, or the place itself where it has none.
fn climb(ups: &[Option<u32>], place: u32) -> u32
    requires chains { IsChains ups.now }
    requires within { place < length ups.now }
    ensures exact { result ≡ top ups.now place }
    ensures within { result < length ups.now }
{
    let mut at = place;
    for _step in 0..ups.len() {
        let Some(above) = ups[at as usize] else {
            return at;
        };
        at = above;
    }
    at
}

// Marks a place and its owners, and leaves the marks of all others.
fn mark_chain(ups: &[Option<u32>], place: u32, marks: &mut [bool])
    requires chains { IsChains ups.now }
    requires within { place < length ups.now }
    requires marks { length marks.old ≡ length ups.now }
    ensures { (above : ℕ) → above < length ups.now →
        is_marked marks.new above ≡ (is_marked marks.old above || is_at_or_over ups.now above place) }
{
    marks[place as usize] = true;
    let mut at = place;
    for _mark in 0..ups.len() {
        let Some(above) = ups[at as usize] else {
            return;
        };
        at = above;
        marks[at as usize] = true;
    }
}
