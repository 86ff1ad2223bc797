// What holds of the definitions: where the constants come from, that the padding is as short as it can be, and an example of the standard's.
ghost use Rattle.compression.specs.Constants.{RootsOf};
ghost use Rattle.compression.specs.Examples.{DigestOfAbc};
ghost use Rattle.compression.specs.Fips180.{K, H₀};
ghost use Rattle.compression.specs.Laws.{FewestZeros};

// The words of the rounds come from the cube roots of the first 64 primes.
#[tactic(auto, using(crate::proofs::Roots::cube_roots))]
pub fn round_words_are_cube_roots()
    ensures { RootsOf 3 64 K }
{}

// The words of the first hash value come from the square roots of the first 8 primes.
#[tactic(auto, using(crate::proofs::Roots::square_roots))]
pub fn initial_words_are_square_roots()
    ensures { RootsOf 2 8 H₀ }
{}

// The padding fills the last block, with as few zeros as it can.
#[tactic(auto, using(crate::proofs::Padding::fewest_zeros_lem))]
pub fn fewest_zeros()
    ensures { FewestZeros }
{}

// The standard's example.
#[tactic(auto, using(crate::proofs::Examples::abc))]
pub fn digest_of_abc()
    ensures { DigestOfAbc }
{}
