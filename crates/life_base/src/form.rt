//! The forms that a pattern can be taken in.

/// The form that a pattern is taken in.
#[derive(Clone, Copy, PartialEq, Eq, Debug)]
pub enum Form {
    /// The pattern in its place.
    Placed,
    /// Moved, so that its place doesn't count.
    Moved,
    /// Turned or reflected, and moved, so that neither its direction nor its place counts.
    Turned,
    /// In one of its phases, turned or reflected, and moved, so that neither its phase, its direction nor its place counts, and no generation. Its period is
    /// sought up to so many generations.
    Phases(u64),
}
