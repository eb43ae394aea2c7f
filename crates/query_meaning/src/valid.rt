//! What a valid block says of its qualities.
ghost use Rattle.query_meaning.specs.Valid.{NumbersTellLeaves};

/// The law that in a valid block a quality, of the output or of a condition, is that of the leaf
/// with its number.
pub fn numbers_tell_leaves()
    ensures { NumbersTellLeaves }
{}
