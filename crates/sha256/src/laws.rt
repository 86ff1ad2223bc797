// What holds of digests and of rows: each statement is the contract of a function, so that the crate is proved only with its proof.
ghost use Rattle.sha256.specs.Laws.{GivesDigests, HashBelow, HashTells};
ghost use Rattle.sha256.specs.Rows.{BytesTell};

// Rows of numbers below 2^256 that are the same bytes are the same row.
#[tactic(auto, using(crate::proofs::Encoding::bytes_tell_lem))]
pub fn bytes_tell()
    ensures { BytesTell }
{}

// A digest is thirty-two bytes.
pub fn gives_digests()
    ensures { GivesDigests }
{}

// The hash of a row is below 2^256, and tells the digest.
#[tactic(auto, using(crate::proofs::Digests::hash_below_lem, crate::proofs::Digests::hash_tells_lem))]
pub fn hash_tells()
    ensures below { HashBelow }
    ensures tells { HashTells }
{}
