// What one turn absorbs.

/// A block, of one of three kinds.
#[derive(Clone, Copy, PartialEq, Eq, Debug)]
pub enum Block<'a> {
    /// 1 to RATE codes: the block of a duplex challenger.
    Codes(&'a [u64]),
    /// 1 to limbs times RATE scalars: the block of a multi-field challenger.
    Scalars(&'a [u64]),
    /// 1 to RATE words: a multi-field challenger's block of a digest.
    Words(&'a [u64]),
}
