//! Reading of names.
ghost use Rattle.std.specs.Prelude.{◌≡◌, ◌↔◌, List, ℕ, IfOk, IfErr, Ok, Err};
ghost use Rattle.fs_path.specs.Refusal.{IsMemory, unless_refused};
ghost use Rattle.fs_path.specs.declared.name.DocName.{DocName};
ghost use Rattle.fs_path.specs.Document.{document_of, document_text, parent_of, reference_of, under, IsDocument, IsDocumentOf, IsParentOf, IsSpelled};
ghost use Rattle.fs_path.specs.Findings.{findings, document_refusals, parent_refusals};
ghost use Rattle.fs_path.specs.Head.{head_name};

use crate::error::PathError;
use crate::head::Head;
use crate::ids::{Ids, split};
use crate::name::{DocName, Root};
use crate::survey::survey_of;
use std::alloc::Global;

/// Reads the name of a document of the server's root. A refusal is the first in the order of `PathError` that holds.
/// (v1 reference, "Document", `name`.)
pub fn parse_document(alloc: Global, root: &Root, text: &str) -> Result<DocName, PathError>
    ensures ok { IfOk result (λ n. document_of root.now text.now ≡ Ok n) }
    ensures err { IfErr result (λ e. ¬ IsMemory e → document_of root.now text.now ≡ Err e) }

    // What is read is the name of a document of the root, and the text is that name's.
    ensures found { IfOk result (λ n. IsDocumentOf root.now n × (text.now ≡ document_text n)) }

    // The text of such a name is refused only for want of memory.
    ensures only { (n : DocName) → IsDocumentOf root.now n → text.now ≡ document_text n → document_of root.now text.now ≡ Ok n }

    // The first refusal comes exactly where the text isn't a database's documents, alone or with a path behind a slash.
    ensures prefix { (document_of root.now text.now ≡ Err PathError.BadPrefix)
        ↔ ((n : DocName) → IsSpelled n → text.now ≡ document_text n → ⊥) }
{
    read_own(alloc, root, text)
}

/// Reads the name of a document of any project and database, as in a reference value. (v1 reference, "Value",
/// `referenceValue`.)
pub fn parse_reference(alloc: Global, text: &str) -> Result<DocName, PathError>
    ensures ok { IfOk result (λ n. reference_of text.now ≡ Ok n) }
    ensures err { IfErr result (λ e. ¬ IsMemory e → reference_of text.now ≡ Err e) }
    ensures found { IfOk result (λ n. IsDocument n × (text.now ≡ document_text n)) }
    ensures only { (n : DocName) → IsDocument n → text.now ≡ document_text n → reference_of text.now ≡ Ok n }
    ensures prefix { (reference_of text.now ≡ Err PathError.BadPrefix)
        ↔ ((n : DocName) → IsSpelled n → text.now ≡ document_text n → ⊥) }
{
    read_reference(alloc, text)
}

/// Reads what has collections: the documents of the server's root, or the name of a document in it. Gives its ids,
/// which are none for the root. (v1 reference, "projects.databases.documents", `parent`.)
pub fn parse_parent(alloc: Global, root: &Root, text: &str) -> Result<Ids, PathError>
    ensures ok { IfOk result (λ ids. parent_of root.now text.now ≡ Ok ids) }
    ensures err { IfErr result (λ e. ¬ IsMemory e → parent_of root.now text.now ≡ Err e) }
    ensures found { IfOk result (λ ids. IsParentOf root.now ids × (text.now ≡ document_text (under root.now ids))) }
    ensures only { (ids : List (List ℕ)) → IsParentOf root.now ids → text.now ≡ document_text (under root.now ids) → parent_of root.now text.now ≡ Ok ids }
    ensures prefix { (parent_of root.now text.now ≡ Err PathError.BadPrefix)
        ↔ ((n : DocName) → IsSpelled n → text.now ≡ document_text n → ⊥) }
{
    read_parent(alloc, root, text)
}

fn read_own(alloc: Global, root: &Root, text: &str) -> Result<DocName, PathError>
    ensures ok { IfOk result (λ n. document_of root.now text.now ≡ Ok n) }
    ensures err { IfErr result (λ e. ¬ IsMemory e → document_of root.now text.now ≡ Err e) }
{
    let Some(head) = Head::of_text(text) else {
        return Err(PathError::BadPrefix);
    };
    if !head.is_of(root) {
        return Err(PathError::WrongDatabase);
    }
    read_name(alloc, head, text.len())
}

fn read_reference(alloc: Global, text: &str) -> Result<DocName, PathError>
    ensures ok { IfOk result (λ n. reference_of text.now ≡ Ok n) }
    ensures err { IfErr result (λ e. ¬ IsMemory e → reference_of text.now ≡ Err e) }
{
    let Some(head) = Head::of_text(text) else {
        return Err(PathError::BadPrefix);
    };
    read_name(alloc, head, text.len())
}

fn read_parent(alloc: Global, root: &Root, text: &str) -> Result<Ids, PathError>
    ensures ok { IfOk result (λ ids. parent_of root.now text.now ≡ Ok ids) }
    ensures err { IfErr result (λ e. ¬ IsMemory e → parent_of root.now text.now ≡ Err e) }
{
    let Some(head) = Head::of_text(text) else {
        return Err(PathError::BadPrefix);
    };
    if !head.is_of(root) {
        return Err(PathError::WrongDatabase);
    }
    read_ids(alloc, head, text.len())
}

/// The name that a text of so many bytes has, if its path is a document's.
fn read_name(alloc: Global, head: Head<'_>, bytes: usize) -> Result<DocName, PathError>
    ensures ok { IfOk result (λ n. unless_refused (head_name head.entry) (document_refusals (findings (head_name head.entry).ids) bytes) ≡ Ok n) }
    ensures err { IfErr result (λ e. ¬ IsMemory e → unless_refused (head_name head.entry) (document_refusals (findings (head_name head.entry).ids) bytes) ≡ Err e) }
{
    survey_of(head.ids).check_document(bytes)?;
    Ok(DocName::of_head(alloc, head)?)
}

/// The ids that a text of so many bytes has, if they are a parent's path.
fn read_ids(alloc: Global, head: Head<'_>, bytes: usize) -> Result<Ids, PathError>
    ensures ok { IfOk result (λ ids. unless_refused (head_name head.entry).ids (parent_refusals (findings (head_name head.entry).ids) bytes) ≡ Ok ids) }
    ensures err { IfErr result (λ e. ¬ IsMemory e → unless_refused (head_name head.entry).ids (parent_refusals (findings (head_name head.entry).ids) bytes) ≡ Err e) }
{
    survey_of(head.ids).check_parent(bytes)?;
    Ok(split(alloc, head.ids)?)
}
