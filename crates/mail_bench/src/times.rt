//! The times that commands took.

ghost use Rattle.std.specs.Prelude.{◌≡◌, ◌≤◌, ◌<◌, IfErr, IfOk, length, vec_len};
ghost use Rattle.std.specs.Ordering.{nat_cmp};
ghost use Rattle.std.specs.List.Sorted.{IsPermutation, IsSorted};
ghost use Rattle.mail_bench.specs.Times.{summary_of, time_at};

use std::alloc::AllocError;

/// The largest number of times that are summarized.
pub const MAX_TIMES: usize = 1_000_000_000;

/// Ranks of times, by the nearest rank; the unit is that of the times.
#[derive(Clone, Copy)]
pub struct Summary {
    /// The least time.
    pub least: u64,
    /// The time that half of all don't exceed.
    pub median: u64,
    /// The time that 90 of a hundred don't exceed.
    pub ninetieth: u64,
    /// The time that 99 of a hundred don't exceed.
    pub ninety_ninth: u64,
    /// The greatest time.
    pub greatest: u64,
}

/// Sorts the times in ascending order, and returns their summary; `None` if there are none. `Err`
/// if memory runs out, and then the times are unchanged.
pub fn summarize(times: &mut Vec<u64>) -> Result<Option<Summary>, AllocError>
    requires { vec_len times.old ≤ 1_000_000_000 }
    ensures sorted { IfOk result (λ summary. IsSorted nat_cmp times.new.items) }
    ensures same { IsPermutation times.old.items times.new.items }
    ensures unchanged { IfErr result (λ none. times.new.items ≡ times.old.items) }
    ensures summary { IfOk result (λ summary. summary ≡ summary_of times.new.items) }
{
    times.sort()?;
    Ok(summary_of(times))
}

/// The summary of times in ascending order; `None` if there are none.
pub fn summary_of(times: &[u64]) -> Option<Summary>
    requires { length times.now ≤ 1_000_000_000 }
    ensures { result ≡ summary_of times.now }
{
    let (Some(least), Some(greatest)) = (times.first(), times.last()) else {
        return None;
    };
    Some(Summary {
        least: *least,
        median: time_at(times, 50),
        ninetieth: time_at(times, 90),
        ninety_ninth: time_at(times, 99),
        greatest: *greatest,
    })
}

/// The time at the nearest rank of `percent` of a hundred, of times in ascending order.
fn time_at(times: &[u64], percent: usize) -> u64
    requires some { 0 < length times.now }
    requires bound { length times.now ≤ 1_000_000_000 }
    requires part { (0 < percent) × (percent ≤ 100) }
    ensures { result ≡ time_at times.now percent }
{
    let rank = (percent * times.len()).div_ceil(100);
    times[rank - 1]
}
