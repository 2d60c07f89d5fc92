//! The parts of a tag.

/// What a tag adds up: the whole of each lane, or one half.
#[derive(Clone, Copy)]
pub(crate) enum TagPart {
    Whole,
    Low,
    High,
}
