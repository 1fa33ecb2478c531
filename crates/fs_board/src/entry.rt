//! What stands at a commit time.
use fs_status::Id;

/// The commit of a time.
#[derive(Drop)]
pub struct Entry<A, B> {
    pub(crate) id: Id,
    pub(crate) asked: A,
    // that of an accepted commit; it is pending before that
    pub(crate) batch: Option<B>,
}

impl<A, B> Entry<A, B> {
    ghost use Rattle.std.specs.Prelude.{◌≡◌};

    /// What it has from the beginning.
    pub fn asked(&self) -> &A
        ensures { result.now ≡ self.now.asked }
    {
        &self.asked
    }
}
