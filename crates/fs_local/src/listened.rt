//! A target that a client listens to.
use fs_query::Target;

/// A target that a client listens to.
#[derive(Drop)]
pub struct Listened {
    pub target: Target,
    /// Whether the last snapshot has it.
    pub shown: bool,
    /// Whether all of it was told on the present link.
    pub current: bool,
}
