// What is printed of a long slice.
ghost use Rattle.std.specs.Prelude.{◌≡◌, map, ◌+◌, ◌^◌, ◌<◌};
ghost use Rattle.calls_stream.specs.Checksum.{modulus, gained, checksum_of};

use crate::inner::element::{Element, MODULUS};

pub fn checksum<T: Element>(values: &[T]) -> u64
    ensures { result ≡ checksum_of (map T.value values.now) }
{
    let mut sum = 0;
    for (i, x) in values.iter().enumerate() {
        sum = gain(sum, i, x.residue());
    }
    sum
}

fn gain(sum: u64, at: usize, residue: u64) -> u64
    requires { (sum < modulus) × (at + 1 < 2 ^ 64) × (residue < modulus) }
    ensures { result ≡ gained sum at residue }
{
    (sum + (at as u64 + 1) % MODULUS * residue) % MODULUS
}
