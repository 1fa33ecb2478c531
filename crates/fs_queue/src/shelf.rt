//! Documents that are looked for by their names, wherever they stand.
ghost use Rattle.std.specs.Prelude.{◌≡◌, IfSome, IsTrue};
ghost use Rattle.std.specs.FinMap.{get, is_sorted};
ghost use Rattle.std.specs.Option.{option_copied};
ghost use Rattle.fs_path.specs.NameOrder.{name_cmp};
ghost use Rattle.fs_value.specs.Named.{by_name};
ghost use Rattle.fs_write.specs.Batch.{Docs, docs_of};

use fs_path::DocName;
use fs_value::{Document, Documents};

/// Documents that are looked for by their names, wherever they stand.
pub trait Shelf {
    /// The documents by their names.
    ghost docs: { Self → Docs };

    /// The document of a name.
    fn find(&self, name: &DocName) -> Option<&Document>
        ensures value { option_copied result ≡ get (docs self.now) name.now }
        ensures named { IfSome result (λ d. d.now.name ≡ name.now) };
}

/// Documents in a list, whose names rise.
#[derive(Drop)]
pub struct Listed<'a> {
    docs: &'a Documents,
    ghost rise: { IsTrue (is_sorted name_cmp (by_name docs.now)) },
}

impl<'a> Listed<'a> {
    /// The documents of a list, whose names rise.
    pub fn new(docs: &'a Documents) -> Listed<'a>
        requires { IsTrue (is_sorted name_cmp (by_name docs.now)) }
        ensures { docs_of result.docs.now ≡ docs_of docs.now }
    {
        Listed { docs }
    }
}

impl<'a> Shelf for Listed<'a> {
    ghost docs = { λ l. docs_of l.docs.now };

    fn find(&self, name: &DocName) -> Option<&Document> {
        self.docs.find(name)
    }
}
