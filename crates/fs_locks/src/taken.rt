//! What one id has taken.
ghost use Rattle.std.specs.Prelude.{◌≡◌};

use fs_path::DocName;
use std::alloc::{AllocError, Global};
use std::marker::Model;

/// The names that one id has taken, in the order in which it took them. Contracts see them as a list.
#[derive(Drop)]
pub(crate) struct Taken {
    names: Vec<DocName>,
}

impl Model for Taken {
    ghost use Rattle.std.specs.Prelude.{List};
    ghost use Rattle.std.specs.Coded.{coded_list};
    ghost use Rattle.fs_path.specs.contracts.name.DocName as name;
    ghost use Rattle.fs_path.specs.declared.name.DocName.{DocName};

    ghost Value = { List DocName };

    ghost coded = { coded_list name.the_row.coded };

    ghost view = { λ t. t.names.items };
}

impl Taken {
    ghost use Rattle.std.specs.Prelude.{◌≡◌, ◌++◌, [], IfOk, OnOk, OnErr};

    // No names, with room for some.
    pub(crate) fn with_room(alloc: Global, count: usize) -> Result<Taken, AllocError>
        ensures { IfOk result (λ t. t ≡ []) }
    {
        Ok(Taken {
            names: Vec::with_capacity(alloc, count)?,
        })
    }

    pub(crate) fn as_slice(&self) -> &[DocName]
        ensures { result.now ≡ self.now }
    {
        self.names.as_slice()
    }

    // Takes names over. Where memory runs out, they stay where they are.
    pub(crate) fn append(&mut self, names: &mut Vec<DocName>) -> Result<(), AllocError>
        ensures ok { OnOk result (self.new ≡ self.old ++ names.old.items) }
        ensures err { OnErr result (self.new ≡ self.old) }
        ensures stay { OnErr result (names.new.items ≡ names.old.items) }
    {
        self.names.append(names)
    }
}
