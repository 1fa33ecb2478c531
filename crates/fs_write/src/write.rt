//! The writes of a commit.

use crate::transform::Transforms;
use fs_path::{Copied, DocName, List, Paths};
use fs_time::Micros;
use fs_value::SharedFields;
use std::alloc::{AllocError, Global};

/// What has to hold of the document before a write, or else the commit is refused. (v1 reference, "Precondition".)
#[derive(Clone, Copy, PartialEq, Eq)]
pub enum Precondition {
    None,
    /// The document is there, or isn't.
    Exists(bool),
    /// The document is there, and was last updated at this time.
    UpdateTime(Micros),
}

/// What a write does to its document. (v1 reference, "Write": `update`, `updateMask`, `delete`.)
/// (docs/DECISIONS.md, "What a write is given are shared fields".)
#[derive(Drop)]
pub enum Act {
    /// An update without a mask: these are the document's fields afterwards. It is created where it is absent.
    Set {
        name: DocName,
        fields: SharedFields,
    },
    /// An update with a mask: the fields at these paths become those of the input, and are deleted where the input hasn't
    /// them. Other fields stay. The document is created where it is absent.
    Merge {
        name: DocName,
        fields: SharedFields,
        mask: Paths,
    },
    /// The document is deleted, if it is there.
    Delete {
        name: DocName,
    },
}

impl Act {
    ghost use Rattle.std.specs.Prelude.{◌≡◌, IfOk};

    pub fn copy(&self, alloc: Global) -> Result<Act, AllocError>
        ensures { IfOk result (λ a. a ≡ self.now) }
    {
        Ok(match self {
            Act::Set { name, fields } => Act::Set {
                name: name.copy(alloc)?,
                fields: fields.copy()?,
            },
            Act::Merge { name, fields, mask } => Act::Merge {
                name: name.copy(alloc)?,
                fields: fields.copy()?,
                mask: mask.copy(alloc)?,
            },
            Act::Delete { name } => Act::Delete {
                name: name.copy(alloc)?,
            },
        })
    }
}

/// One write of a commit: what it does, the transforms that follow, and what has to hold before. (v1 reference, "Write".)
#[derive(Drop)]
pub struct Write {
    pub act: Act,
    pub transforms: Transforms,
    pub condition: Precondition,
}

impl Write {
    ghost use Rattle.std.specs.Prelude.{◌≡◌, IfOk};
    ghost use Rattle.fs_write.specs.WrittenName.{written_name};

    /// The name of the document that is written.
    pub fn name(&self) -> &DocName
        ensures { result.now ≡ written_name self.now }
    {
        match &self.act {
            Act::Set { name, .. } => name,
            Act::Merge { name, .. } => name,
            Act::Delete { name } => name,
        }
    }

    pub fn copy(&self, alloc: Global) -> Result<Write, AllocError>
        ensures { IfOk result (λ w. w ≡ self.now) }
    {
        Ok(Write {
            act: self.act.copy(alloc)?,
            transforms: self.transforms.copy(alloc)?,
            condition: self.condition,
        })
    }
}

/// The writes of a commit, in their order: a later one sees what an earlier one did.
pub type Writes = List<Write>;

impl Copied for Write {
    fn copy(&self, alloc: Global) -> Result<Write, AllocError> {
        self.copy(alloc)
    }
}
