//! Documents by their names.
use crate::document::{Document, Documents};
use fs_path::DocName;
use std::alloc::{AllocError, Global};
use std::collections::BTreeMap;
use std::marker::Model;

/// Documents by their names, in the order of names. Contracts see a finite map from names to documents, in which each
/// document stands at its own name:
///
///     demo/(default)/c/a    {n: 1}
///     demo/(default)/c/b    {n: 2}      `put` of another `c/b` takes the place of this one
/// (docs/DECISIONS.md, "A map of documents has a name twice, as the key and in the document".)
#[derive(Drop)]
pub struct DocumentMap {
    documents: BTreeMap<DocName, Document>,
}

impl Model for DocumentMap {
    ghost use Rattle.std.specs.FinMap as map;
    ghost use Rattle.fs_path.specs.NameOrder.{name_cmp};
    ghost use Rattle.fs_path.specs.contracts.name.DocName as name;
    ghost use Rattle.fs_value.specs.contracts.document.Document as document;
    ghost use Rattle.fs_value.specs.declared.document.Document.{Document};
    ghost use Rattle.fs_value.specs.Named.{StandAtNames};

    ghost Value = { map.FinMap name_cmp Document };

    ghost coded = { map.code name.the_row.coded document.the_row.coded };

    ghost view = { λ m. map.from_entries m.documents.entries };

    ghost invariant = { λ m. StandAtNames m.documents.entries };
}

impl DocumentMap {
    ghost use Rattle.std.specs.Prelude.{◌≡◌, IfOk, IfSome, IsTrue, OnOk, OnErr, option_copied};
    ghost use Rattle.std.specs.FinMap as map;
    ghost use Rattle.fs_path.specs.NameOrder.{name_cmp};
    ghost use Rattle.fs_value.specs.Named.{by_name};

    /// No documents. The allocator serves those that are put in.
    pub fn new(alloc: Global) -> DocumentMap
        ensures { result ≡ map.empty }
    {
        DocumentMap {
            documents: BTreeMap::new(alloc),
        }
    }

    pub fn len(&self) -> usize
        ensures { result ≡ map.len self.now }
    {
        self.documents.len()
    }

    /// The document of a name.
    pub fn get(&self, name: &DocName) -> Option<&Document>
        ensures value { option_copied result ≡ map.get self.now name.now }
        ensures named { IfSome result (λ d. d.now.name ≡ name.now) }
    {
        self.documents.get(name)
    }

    /// Puts a document at its name, in place of the one that is there.
    pub fn put(&mut self, alloc: Global, document: Document) -> Result<(), AllocError>
        ensures ok { OnOk result (self.new ≡ map.insert self.old document.name document) }
        ensures err { OnErr result (self.new ≡ self.old) }
    {
        let name = document.name.copy(alloc)?;
        self.documents.insert(name, document)?;
        Ok(())
    }

    /// Takes out the document of a name.
    pub fn remove(&mut self, name: &DocName) -> Option<Document>
        ensures value { result ≡ map.get self.old name.now }
        ensures removed { self.new ≡ map.remove self.old name.now }
    {
        self.documents.remove(name)
    }

    /// The documents in the order of their names. They share their fields with those here.
    pub fn documents(&self, alloc: Global) -> Result<Documents, AllocError>
        ensures value { IfOk result (λ ds. ds ≡ map.values self.now) }
        ensures rise { IfOk result (λ ds. IsTrue (map.is_sorted name_cmp (by_name ds))) }

        // Each by its own name, they are those of the map.
        ensures same { IfOk result (λ ds. map.from_sorted (by_name ds) ≡ self.now) }
    {
        let mut items = Vec::with_capacity(alloc, self.documents.len())?;
        for (_, document) in &self.documents {
            items.push(document.copy(alloc)?)?;
        }
        Ok(Documents::of(items))
    }

    pub fn copy(&self, alloc: Global) -> Result<DocumentMap, AllocError>
        ensures { IfOk result (λ m. m ≡ self.now) }
    {
        let mut documents = BTreeMap::new(alloc);
        for (name, document) in &self.documents {
            documents.insert(name.copy(alloc)?, document.copy(alloc)?)?;
        }
        Ok(DocumentMap { documents })
    }
}
