//! The theorems on programs. The function computes nothing; its contract asks the prover for what it states.
ghost use Rattle.programs.specs.Theorems.{Theorems};
ghost use Rattle.programs.specs.Plain.{Plain};
ghost use Rattle.programs.specs.Cases.{Cases};

/// What is proved of programs, runs and laws: for words of any number of bits, any limits and any rows given at point 0;
/// the same with no parameter, for the base; and worked programs.
pub fn theorems()
    ensures general { Theorems }
    ensures plain { Plain }
    ensures cases { Cases }
{}
