//! Roots and document names.
ghost use Rattle.std.specs.Prelude.{◌≡◌, IfOk};

use crate::head::Head;
use crate::ids::Ids;
use crate::order::compare_paths;
use crate::segment::{count_of, first_segment, segment_at};
use crate::text::Text;
use std::alloc::{AllocError, Global};
use std::cmp::Ordering;
use std::hash::{Hash, Hasher};
use std::marker::Model;

/// The root of a server's documents: its project and its database.
#[derive(PartialEq, Eq, Drop)]
pub struct Root {
    pub project: Text,
    pub database: Text,
}

impl Root {
    pub fn copy(&self, alloc: Global) -> Result<Root, AllocError>
        ensures { IfOk result (λ r. r ≡ self.now) }
    {
        Ok(Root {
            project: self.project.copy(alloc)?,
            database: self.database.copy(alloc)?,
        })
    }
}

/// The name of a document: `projects/{project}/databases/{database}/documents/` and its ids, joined by `/`.
///
/// It is held as one text, `demo/(default)/c/a`, and contracts see its project, its database and its ids. Names are
/// ordered segment by segment, and a name that begins another comes first. So a slash comes before every other byte:
///
///     demo/(default)/c/a
///     demo/(default)/c/a/x/b      at the byte behind `a`, `/` comes before `-`,
///     demo/(default)/c/a-b        though its number, 0x2f, is above that of `-`, 0x2d
/// (docs/DECISIONS.md, "A name is one text".)
#[derive(Drop)]
pub struct DocName {
    path: String,
}

impl Model for DocName {
    ghost use Rattle.std.specs.Prelude.{string_bytes};
    ghost use Rattle.fs_path.specs.Name.{Name, name_in, IsPath};

    ghost Value = { Name };

    ghost view = { λ n. name_in (string_bytes n.path) };

    ghost invariant = { λ n. IsPath (string_bytes n.path) };
}

impl DocName {
    ghost use Rattle.std.specs.Prelude.{◌≡◌, ◌↔◌, ◌+◌, ◌<◌, IfOk, IfSome, Some, None, false, length, slice_get, string_bytes, sum_by};
    ghost use Rattle.std.specs.List.{AllByRecursion};
    ghost use Rattle.std.specs.Option.{option_copied};
    ghost use Rattle.fs_path.specs.Cursor.{rest_segments};
    ghost use Rattle.fs_path.specs.Document.{under};
    ghost use Rattle.fs_path.specs.Head.{head_name};
    ghost use Rattle.fs_path.specs.Name.{name_in, IsPath};
    ghost use Rattle.fs_path.specs.Segment.{has_slash};

    /// The name that a text as `demo/(default)/c/a` holds, without a copy. It is none where there is no slash, and so no
    /// database.
    pub fn of_path(path: String) -> Option<DocName>
        ensures value { IfSome result (λ n. n ≡ name_in (string_bytes path)) }
        ensures none { (result ≡ None) ↔ (IsPath (string_bytes path) → ⊥) }
    {
        match first_segment(path.as_str()).1 {
            Some(_) => Some(DocName { path }),
            None => None,
        }
    }

    /// The name of the document with these ids in a root's database. No part may have a slash.
    pub fn new(alloc: Global, root: &Root, ids: &Ids) -> Result<DocName, AllocError>
        requires project { has_slash root.now.project ≡ false }
        requires database { has_slash root.now.database ≡ false }
        requires ids { AllByRecursion (λ id. has_slash id ≡ false) ids.now }
        ensures { IfOk result (λ n. n ≡ under root.now ids.now) }
    {
        let mut path = String::from_str(alloc, root.project.as_str())?;
        path.push_str("/")?;
        path.push_str(root.database.as_str())?;
        for id in ids.as_slice() {
            path.push_str("/")?;
            path.push_str(id.as_str())?;
        }
        Ok(DocName { path })
    }

    /// The name that is read of a text, whose bytes are copied here, and only here.
    pub(crate) fn of_head(alloc: Global, head: Head<'_>) -> Result<DocName, AllocError>
        ensures { IfOk result (λ n. n ≡ head_name head.entry) }
    {
        let mut path = String::with_capacity(alloc, head.path_len())?;
        path.push_str(head.project)?;
        path.push_str("/")?;
        path.push_str(head.database)?;
        head.push_ids(&mut path)?;
        Ok(DocName { path })
    }

    pub fn copy(&self, alloc: Global) -> Result<DocName, AllocError>
        ensures { IfOk result (λ n. n ≡ self.now) }
    {
        Ok(DocName {
            path: String::from_str(alloc, self.path.as_str())?,
        })
    }

    pub fn project(&self) -> &str
        ensures value { result.now ≡ self.now.project }
        ensures whole { has_slash result.now ≡ false }
    {
        self.head().project
    }

    pub fn database(&self) -> &str
        ensures value { result.now ≡ self.now.database }
        ensures whole { has_slash result.now ≡ false }
    {
        self.head().database
    }

    /// The ids with a slash between each two, as `c/a`, or `None` where there are none.
    pub fn ids(&self) -> Option<&str>
        ensures { rest_segments (option_copied result) ≡ self.now.ids }
    {
        self.head().ids
    }

    /// The number of ids.
    pub fn len(&self) -> usize
        ensures { result ≡ length self.now.ids }
    {
        count_of(self.ids())
    }

    /// The id at a place, counted from 0.
    pub fn id(&self, i: usize) -> &str
        requires { i < length self.now.ids }
        ensures { slice_get self.now.ids i ≡ Some result.now }
    {
        segment_at(self.ids(), i)
    }

    /// What the ids add to a name's counted size: their bytes, and 1 for each.
    pub fn ids_size(&self) -> usize
        ensures { result ≡ sum_by (λ id. length id + 1) self.now.ids }
    {
        match self.ids() {
            Some(ids) => ids.len() + 1,
            None => 0,
        }
    }

    /// The parts of the name, as its text has them.
    pub(crate) fn head(&self) -> Head<'_>
        ensures { head_name result ≡ self.now }
    {
        Head::of_path(self.path.as_str())
    }
}

impl PartialEq for DocName {
    ghost use Rattle.fs_path.specs.NameOrder.{name_eq, name_eq_partial};

    ghost eq = { name_eq };

    ghost laws = { name_eq_partial };

    fn eq(&self, other: &DocName) -> bool {
        self.path.as_str() == other.path.as_str()
    }
}

impl Eq for DocName {
    ghost use Rattle.fs_path.specs.NameOrder.{name_eq_equiv};

    ghost laws = { name_eq_equiv };
}

impl PartialOrd for DocName {
    ghost use Rattle.std.specs.Ordering.{as_partial_cmp};
    ghost use Rattle.fs_path.specs.NameOrder.{name_cmp, name_po};

    ghost partial_cmp = { as_partial_cmp name_cmp };

    ghost laws = { name_po };

    fn partial_cmp(&self, other: &DocName) -> Option<Ordering> {
        Some(self.cmp(other))
    }
}

// (docs/DECISIONS.md, "Names are ordered segment by segment".)
impl Ord for DocName {
    ghost use Rattle.std.specs.Prelude.{refl};
    ghost use Rattle.fs_path.specs.NameOrder.{name_cmp, name_cmp_total};

    ghost cmp = { name_cmp };

    ghost total = { name_cmp_total };

    ghost matches_partial_cmp = { λ _ _. refl };

    ghost matches_eq = { λ _ _. refl };

    #[tactic(auto, using(crate::proofs::PathOrder::name_cmp_paths))]
    fn cmp(&self, other: &DocName) -> Ordering {
        compare_paths(self.path.as_bytes(), other.path.as_bytes())
    }
}

impl Hash for DocName {
    ghost use Rattle.std.specs.Hash as fed;
    ghost use Rattle.fs_path.specs.Name.{path_of};
    ghost use Rattle.fs_path.specs.NameOrder.{name_hashed_alike};

    ghost hash_input = { λ n. fed.str (path_of n) };

    ghost respects_eq = { name_hashed_alike };

    #[tactic(auto, using(crate::proofs::NameTexts::path_again))]
    fn hash<H: Hasher>(&self, state: &mut H) {
        self.path.as_str().hash(state);
    }
}
