//! A checksum of numbers in their order.
ghost use Rattle.std.specs.Prelude.{◌≡◌, ◌+◌, ◌*◌, ◌%◌, ◌^◌, ℕ};
ghost use Rattle.std.specs.List.{FoldsTo};

pub(crate) fn mix(sum: u64, number: u64) -> u64
    ensures { result ≡ (sum * 31 + number) % 2 ^ 64 }
{
    sum.wrapping_mul(31).wrapping_add(number)
}

/// Mixes in each number, one after another.
pub(crate) fn mix_all<T: Copy + Into<u64>>(sum: u64, numbers: &[T]) -> u64
    ensures { FoldsTo (λ s x t. (n : ℕ) × T.converts x n × (t ≡ (s * 31 + n) % 2 ^ 64)) sum numbers.now result }
{
    numbers
        .iter()
        .fold(sum, |sum, &number| mix(sum, number.into()))
}
