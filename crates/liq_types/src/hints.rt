//! Where a trove may stand in the ordered list. A hint saves steps and changes no reply.

/// The two hint words of a command.
#[derive(Clone, Copy, PartialEq, Eq)]
pub struct HintWords {
    /// The account before the place, nearer the front.
    pub prev: Option<u32>,
    /// The account after the place.
    pub next: Option<u32>,
}

impl HintWords {
    /// No word is there.
    pub const NONE: HintWords = HintWords {
        prev: None,
        next: None,
    };
}

/// A place that was found in some version of the ordered list.
#[derive(Clone, Copy, PartialEq, Eq)]
pub struct Hint {
    /// The account before the place, nearer the front.
    pub prev: Option<u32>,
    /// The account after the place.
    pub next: Option<u32>,
    /// The number of the version.
    pub version: u64,
}

impl Hint {
    /// A hint of nothing: with no account on either side, it is for an empty list.
    pub const NONE: Hint = Hint {
        prev: None,
        next: None,
        version: 0,
    };
}
