//! The counts of the fakes: calls are numbered from 1, and a count stands still at its type's last value.

ghost use Rattle.std.specs.Prelude.{◌≡◌, ◌≤◌};
ghost use Rattle.wp_edge.specs.Faults.{one_more};
ghost use Rattle.wp_edge.specs.Fakes.{is_listed};

/// Counts a call, and answers whether its number is among those that fail.
pub fn count_call(fails: &[u64], calls: &mut u64) -> bool
    ensures number { calls.new ≡ one_more calls.old }
    ensures fails { result ≡ is_listed fails.now (one_more calls.old) }
{
    count(calls);
    fails.contains(calls)
}

/// Raises a count.
pub fn count(counted: &mut u64)
    ensures more { counted.new ≡ one_more counted.old }
    ensures later { counted.old ≤ counted.new }
{
    *counted = counted.saturating_add(1);
}
