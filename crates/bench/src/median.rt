//! Computes the median of measured times.
ghost use Rattle.std.specs.Prelude.{◌≡◌, ◌/◌, vec_len, slice_get};
ghost use Rattle.std.specs.List.Sorted.{IsPermutation, IsSorted};
ghost use Rattle.std.specs.Ordering.{nat_cmp};

/// Sorts the times in ascending order and returns their median, or `None` if there are none. The median of an even
/// number of times is the upper of the two in the middle.
pub fn median(times: &mut Vec<u64>) -> Option<u64>
    ensures permutation { IsPermutation times.old.items times.new.items }
    ensures ascending { IsSorted nat_cmp times.new.items }
    ensures middle { result ≡ slice_get times.new.items (vec_len times.new / 2) }
{
    times.sort_unstable();
    times.get(times.len() / 2).copied()
}
