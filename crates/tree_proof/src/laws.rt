//! What holds of every certificate: functions that do nothing, whose contracts are laws.

ghost use Rattle.tree_proof.specs.Laws.{FindingsAreTrue, ProofsAreTaken, TopsAreOfPairs};

/// Law: what is found is true of every tree with that root, unless two different texts that were hashed have one digest.
pub fn findings_are_true()
    ensures { FindingsAreTrue }
{}

/// Law: what is proved of a path is taken, and says what stands there.
pub fn proofs_are_taken()
    ensures { ProofsAreTaken }
{}

/// Law: the top of digests is that of a pair, the first of which has the greatest power of two below their number.
pub fn tops_are_of_pairs()
    ensures { TopsAreOfPairs }
{}
