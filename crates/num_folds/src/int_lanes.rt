// What the kernels ask of lanes of integers.
ghost use Rattle.std.specs.Prelude.{◌≡◌, ℕ, ◌+◌, ◌^◌, ◌<◌, ◌≤◌, length, eqb, if◌then◌else◌, FitsSigned};
ghost use Rattle.std.specs.Int.{bit_at, w32};
ghost use Rattle.num_folds.specs.Lanes.{Holds, at};
ghost use lib.IntN.{pos, negsuc};

use std::simd::prelude::*;

/// Reads the lanes' numbers and does nothing with them: a number that was read is known to fit its type.
#[inline(always)]
pub fn fit<const N: usize>(numbers: &[i32], start: usize)
    requires { start + N ≤ length numbers.now }
    ensures { (k : ℕ) → k < N → FitsSigned w32 (at numbers.now (start + k)) }
{
    for k in 0..N {
        let _number = numbers[start + k];
    }
}

/// The lanes at which a bit is 1.
#[inline(always)]
pub fn marks<const N: usize>(bits: u64) -> std::simd::Mask<i32, N>
    requires { (0 < N) × (N ≤ 16) × (bits < 2 ^ 32) }
    ensures { Holds N result (λ k. if eqb (bit_at bits k) 1 then negsuc 0 else pos 0) }
{
    let mut places = [0u32; N];
    for k in 0..N {
        places[k] = 1 << k;
    }
    let places = Simd::from_array(places);
    (Simd::splat(bits as u32) & places).simd_ne(Simd::splat(0))
}
