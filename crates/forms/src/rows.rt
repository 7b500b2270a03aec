//! Rows of words, added and multiplied in place.
ghost use Rattle.std.specs.Prelude.{◌≡◌, length};
ghost use Rattle.algebra.specs.Vec.{plus, times, dot as dot_of};

use crate::words::mul_add;

// The index stands for the second row: of a `&mut` row that is zipped, a proof knows the length afterwards and not the words.

// v becomes v + k t.
#[tactic(auto, using(crate::proofs::RowSums::added_all))]
pub(crate) fn add_multiple(v: &mut [u32], k: u32, t: &[u32])
    requires { length v.old ≡ length t.now }
    ensures { v.new ≡ plus 32 v.old (times 32 k t.now) }
{
    for (i, x) in v.iter_mut().enumerate() {
        *x = mul_add(*x, k, t[i]);
    }
}

// `unit` times v takes the place of t, and v becomes what t was, plus k times what it is now.
pub(crate) fn exchange(v: &mut [u32], t: &mut [u32], unit: u32, k: u32)
    requires { length v.old ≡ length t.old }
    ensures new { t.new ≡ times 32 unit v.old }
    ensures left { v.new ≡ plus 32 t.old (times 32 k (times 32 unit v.old)) }
{
    for (i, x) in v.iter_mut().enumerate() {
        let new = mul_add(0, unit, *x);
        *x = mul_add(t[i], k, new);
        t[i] = new;
    }
}

// The sum of the products, place by place. By `zip` and `fold` the laws of a form take a quarter more time.
pub(crate) fn dot(c: &[u32], x: &[u32]) -> u32
    requires { length c.now ≡ length x.now }
    ensures { result ≡ dot_of 32 c.now x.now }
{
    let mut sum = 0;
    for (i, a) in c.iter().enumerate() {
        sum = mul_add(sum, *a, x[i]);
    }
    sum
}
