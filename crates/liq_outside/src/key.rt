//! Who may ask a disk for its moment.

/// What it takes to ask a disk for its moment. No other crate can make one, so no body there reads
/// a moment.
#[derive(Drop)]
pub struct Key {
    made: (),
}

impl Key {
    pub(crate) const fn new() -> Key {
        Key { made: () }
    }
}
