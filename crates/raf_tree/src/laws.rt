//! What holds of the tree of chunks, for the proofs of callers.
ghost use Rattle.raf_tree.specs.Hashing.{Hashing};
ghost use Rattle.raf_tree.specs.Laws.{TreeLaws};
ghost use Rattle.std.specs.Prelude.{◌≡◌};
ghost use Rattle.raf_tree.specs.Calls.{CallLaws, Content, answer, commitment_call};
ghost use Rattle.raf_tree.specs.Walk.{WalkLaws, BindingLaws};

/// The laws of the tree of chunks, for the proofs of callers that carry one through the changes of a file: its leaves are the hashes of
/// the chunks, a kept place has its node and any other is empty, and what a change has to put before an `update`. The call does nothing.
pub fn tree_laws()
    ensures { (H : Hashing) → TreeLaws H }
{}

/// What holds of two trees, for the proofs of callers that walk down both: where their calls are the same, and how the first pair of
/// places whose calls differ is found. The call does nothing.
pub fn walk_laws()
    ensures { (H : Hashing) (x y : Content) → WalkLaws H x y }
{}

/// The law of commitments: where two are equal, what they are to is equal, or two hasher calls are different and have one answer, and
/// the first such pair is at a pair of places. The call does nothing.
pub fn binding_laws()
    ensures { (H : Hashing) (x y : Content) (one : answer H (commitment_call H x) ≡ answer H (commitment_call H y)) → BindingLaws H x y one }
{}

/// The laws of the calls that make a file's commitment, for the proofs of callers that compare them: what each node is asked by, and that
/// the answer is the node. The call does nothing.
pub fn call_laws()
    ensures { (H : Hashing) → CallLaws H }
{}
