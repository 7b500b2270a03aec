//! Linear algebra over words of w bits: a library of theorems. Its functions compute nothing; their contracts ask the
//! prover for what they state.

#![tactic(auto)]

ghost use Rattle.std.specs.Prelude.{List, ℕ};
ghost use Rattle.algebra.specs.Examples.{Examples};
ghost use Rattle.algebra.specs.Theorems.{Algebra, Spanned, Unique};

/// A set of rows: any property of lists of numbers.
pub trait RowSet {
    ghost has: { Self → List ℕ → Type 0 };
}

/// What holds of every set of rows that is closed under sums: each member is a sum of its best rows, and it has one list
/// of best rows only.
pub fn best_rows<S: RowSet>(set: &S)
    ensures spanned { Spanned (S.has set.now) }
    ensures unique { Unique (S.has set.now) }
{}

/// The theorems on forms, annihilators and linear systems, and examples of what they compute.
pub fn theorems()
    ensures algebra { Algebra }
    ensures examples { Examples }
{}
