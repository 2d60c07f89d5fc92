//! Worked sessions over files of many chunks, with a hasher and without one, computed from the definitions: see `proofs/`.
