//! Where keys are kept.

/// Where a slot has its key.
#[derive(Clone, Copy, Debug)]
pub enum KeyPlace {
    /// It has no key.
    Nowhere,
    /// Its key is at its own time.
    Ahead,
    /// It waits with its station.
    Waiting,
}
