//! Whether a target shows all that it listens to.
ghost use Rattle.std.specs.Prelude.{◌≡◌};
ghost use Rattle.fs_listen.specs.View.{is_whole, is_whole_query};

use fs_query::{Query, Target};

// Whether all that fits is shown: no cursor, offset or limit cuts it.
fn is_whole_query(q: &Query) -> bool
    ensures { result ≡ is_whole_query q.now }
{
    q.start.is_none() && q.end.is_none() && q.offset <= 0 && q.limit.is_none()
}

/// Whether a target's view is all that it listens to: it is of names, or of a query that no cursor, offset or limit cuts.
pub fn is_whole(target: &Target) -> bool
    ensures { result ≡ is_whole target.now }
{
    match target {
        Target::Query(q) => is_whole_query(q),
        Target::Documents(_) => true,
    }
}
