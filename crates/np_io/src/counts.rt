//! Counts that stay at the greatest `u64` once they are there.
ghost use Rattle.std.specs.Prelude.{◌≡◌, ◌↔◌, IsTrue, Contains};
ghost use Rattle.np_io.specs.Prelude.{NeverFalls, raised};

// Counts one more.
pub(crate) fn count(total: &mut u64)
    ensures raised { total.new ≡ raised total.old }
    ensures never { NeverFalls total.old total.new }
{
    *total = total.saturating_add(1);
}

// Counts a call, and answers whether its number, from 1 on, is one of those that are to fail.
pub(crate) fn is_due(failing: &[u64], calls: &mut u64) -> bool
    ensures counted { calls.new ≡ raised calls.old }
    ensures due { IsTrue result ↔ Contains failing.now calls.new }
{
    count(calls);
    failing.contains(calls)
}
