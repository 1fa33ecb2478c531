//! Lists of documents' names.
ghost use Rattle.std.specs.Prelude.{◌≡◌, IfOk, map};
ghost use Rattle.std.specs.List.{list_any};
ghost use Rattle.std.specs.List.Sorted.{IsStrictlySortedBy};
ghost use Rattle.fs_path.specs.NameOrder.{name_cmp, name_eq};
ghost use Rattle.fs_path.specs.declared.name.DocName.{DocName};

use crate::list::{Copied, List};
use crate::name::DocName;
use std::alloc::{AllocError, Global};
use std::collections::BTreeSet;

/// Names of documents in order, as those that a read asks for (v1 reference, "BatchGetDocumentsRequest").
pub type Names = List<DocName>;

impl Copied for DocName {
    fn copy(&self, alloc: Global) -> Result<DocName, AllocError> {
        self.copy(alloc)
    }
}

/// Names in their order, each once. None is copied.
pub fn sorted_names<'a>(
    alloc: Global,
    names: &'a Names,
) -> Result<BTreeSet<&'a DocName>, AllocError>
    ensures rise { IfOk result (λ s. IsStrictlySortedBy name_cmp (map (λ n. n.now) s.keys)) }
    ensures same { IfOk result (λ s. (q : DocName) → list_any (name_eq q) (map (λ n. n.now) s.keys) ≡ list_any (name_eq q) names.now) }
{
    let mut sorted = BTreeSet::new(alloc);
    for name in names.as_slice() {
        sorted.insert(name)?;
    }
    Ok(sorted)
}
