//! Words of 32 bits: sums and products modulo 2^32, and inverses.
ghost use Rattle.std.specs.Prelude.{◌≡◌, ◌+◌, ◌-◌, ◌*◌, ◌/◌, ◌%◌, ◌^◌, ◌<◌, ◌≤◌};
ghost use Rattle.algebra.specs.Vec.{neg as minus_one};
ghost use Rattle.algebra.specs.Inverse.{newton as newton_of, inverse as inverse_of};

// a + k b. The product is made in 64 bits and the sum cut to 32, which is the project's form for one step of a row
// (docs/DECISIONS.md).
pub(crate) fn mul_add(a: u32, k: u32, b: u32) -> u32
    ensures { result ≡ (a + k * b) % 2 ^ 32 }
{
    ((a as u64 + k as u64 * b as u64) % 0x1_0000_0000) as u32
}

// Newton's step to the inverse of u: it doubles the number of low digits of a that are right.
fn newton(u: u32, a: u32) -> u32
    ensures { result ≡ newton_of 32 u a }
{
    a.wrapping_mul(2u32.wrapping_sub(u.wrapping_mul(a)))
}

// The inverse of an odd number. An odd number is its own inverse modulo 8, so four steps give 48 digits.
#[tactic(auto, using(crate::proofs::Inverses::four_steps))]
pub(crate) fn inverse(u: u32) -> u32
    requires { u % 2 ≡ 1 }
    ensures { result ≡ inverse_of 32 u }
{
    let a = newton(u, u);
    let b = newton(u, a);
    let c = newton(u, b);
    newton(u, c)
}

// What times 2^e cancels a sum that 2^e divides: the least such number. In 64 bits, since the modulus is 2^32 where e is 0; in
// 32 bits both shifts would have to be checked.
pub(crate) fn cancel(sum: u32, e: u32) -> u32
    requires { e ≤ 32 }
    ensures { result ≡ (minus_one 32 * (sum / 2 ^ e)) % 2 ^ (32 - e) }
{
    let modulus = 1u64 << (32 - e);
    ((modulus - (sum as u64 >> e)) & (modulus - 1)) as u32
}
