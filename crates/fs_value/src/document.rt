//! Documents.
ghost use Rattle.std.specs.Prelude.{◌≡◌, ◌↔◌, IsTrue};
ghost use Rattle.fs_value.specs.Same.{same_document, same_fields};

use crate::order::fields_same;
use crate::shared::SharedFields;
use fs_path::DocName;
use fs_time::Micros;
use std::alloc::{AllocError, Global};
use std::marker::Model;

/// A document (`google.firestore.v1.Document`): its name and fields, when it was created, and when it was last updated.
#[derive(Drop)]
pub struct Document {
    pub name: DocName,
    pub fields: SharedFields,
    pub created: Micros,
    pub updated: Micros,
}

const _: () = prove!(size_of::<Document>() <= 48);

impl Document {
    ghost use Rattle.std.specs.Prelude.{◌≡◌, IfOk};

    /// The same document once more, which shares its fields with this one.
    pub fn copy(&self, alloc: Global) -> Result<Document, AllocError>
        ensures { IfOk result (λ d. d ≡ self.now) }
    {
        Ok(Document {
            name: self.name.copy(alloc)?,
            fields: self.fields.copy()?,
            created: self.created,
            updated: self.updated,
        })
    }
}

/// Whether two documents are the same: their names, their fields and both of their times.
pub fn document_same(a: &Document, b: &Document) -> bool
    ensures value { result ≡ same_document a.now b.now }
    ensures meaning { IsTrue result ↔ (a.now ≡ b.now) }
{
    is_same(a, b)
}

fn is_same(a: &Document, b: &Document) -> bool
    ensures { result ≡ same_document a.now b.now }
{
    a.name == b.name
        && are_same(&a.fields, &b.fields)
        && a.created == b.created
        && a.updated == b.updated
}

fn are_same(a: &SharedFields, b: &SharedFields) -> bool
    ensures { result ≡ same_fields a.now b.now }
{
    fields_same(a.as_fields(), b.as_fields())
}

/// Documents in order. Contracts see them as a list.
#[derive(Drop)]
pub struct Documents {
    items: Vec<Document>,
}

impl Model for Documents {
    ghost use Rattle.std.specs.Prelude.{List};
    ghost use Rattle.std.specs.Coded.{coded_list};
    ghost use Rattle.fs_value.specs.contracts.document.Document as document;
    ghost use Rattle.fs_value.specs.declared.document.Document.{Document};

    ghost Value = { List Document };

    ghost coded = { coded_list document.the_row.coded };

    ghost view = { λ d. d.items.items };
}

impl Documents {
    ghost use Rattle.std.specs.Prelude.{◌≡◌, ◌↔◌, ◌<◌, ◌∷◌, ◌++◌, IfOk, OnOk, OnErr, IsTrue, Some, [], length, map, option_map, slice_get};
    ghost use Rattle.std.specs.FinMap.{find, is_sorted};
    ghost use Rattle.fs_path.specs.NameOrder.{name_cmp};
    ghost use Rattle.fs_value.specs.Named.{by_name};

    /// No documents. The allocator serves those that are pushed.
    pub fn new(alloc: Global) -> Documents
        ensures { result ≡ [] }
    {
        Documents {
            items: Vec::new(alloc),
        }
    }

    /// The documents of a `Vec`, without a copy.
    pub fn of(items: Vec<Document>) -> Documents
        ensures { result ≡ items.items }
    {
        Documents { items }
    }

    /// The documents as a `Vec`, without a copy.
    pub fn into_vec(self) -> Vec<Document>
        ensures { result.items ≡ self }
    {
        self.items
    }

    pub fn as_slice(&self) -> &[Document]
        ensures { result.now ≡ self.now }
    {
        self.items.as_slice()
    }

    pub fn len(&self) -> usize
        ensures { result ≡ length self.now }
    {
        self.items.len()
    }

    pub fn is_empty(&self) -> bool
        ensures { IsTrue result ↔ (self.now ≡ []) }
    {
        self.items.is_empty()
    }

    pub fn at(&self, i: usize) -> &Document
        requires { i < length self.now }
        ensures { slice_get self.now i ≡ Some result.now }
    {
        &self.items[i]
    }

    /// The document of a name, among documents whose names rise.
    pub fn find(&self, name: &DocName) -> Option<&Document>
        requires { IsTrue (is_sorted name_cmp (by_name self.now)) }
        ensures { option_map (λ d. d.now) result ≡ find name_cmp name.now (by_name self.now) }
    {
        match self
            .items
            .binary_search_by(|document| document.name.cmp(name))
        {
            Ok(i) => Some(&self.items[i]),
            Err(_) => None,
        }
    }

    /// Adds a document at the end.
    pub fn push(&mut self, document: Document) -> Result<(), AllocError>
        ensures ok { OnOk result (self.new ≡ self.old ++ document ∷ []) }
        ensures err { OnErr result (self.new ≡ self.old) }
    {
        Ok(self.items.push(document)?)
    }

    /// The documents where they stand. None is copied.
    pub fn lent(&self, alloc: Global) -> Result<Vec<&Document>, AllocError>
        ensures { IfOk result (λ v. map (λ d. d.now) v.items ≡ self.now) }
    {
        let mut lent = Vec::with_capacity(alloc, self.items.len())?;
        for document in &self.items {
            lent.push(document)?;
        }
        Ok(lent)
    }

    /// Copies of documents that stand elsewhere. They share their fields with those there.
    pub fn copied(alloc: Global, docs: &[&Document]) -> Result<Documents, AllocError>
        ensures { IfOk result (λ ds. ds ≡ map (λ d. d.now) docs.now) }
    {
        let mut items = Vec::with_capacity(alloc, docs.len())?;
        for document in docs {
            items.push(document.copy(alloc)?)?;
        }
        Ok(Documents { items })
    }

    pub fn copy(&self, alloc: Global) -> Result<Documents, AllocError>
        ensures { IfOk result (λ ds. ds ≡ self.now) }
    {
        let mut items = Vec::with_capacity(alloc, self.items.len())?;
        for document in &self.items {
            items.push(document.copy(alloc)?)?;
        }
        Ok(Documents { items })
    }
}
