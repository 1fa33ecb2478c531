//! Printing of names.
ghost use Rattle.std.specs.Prelude.{◌≡◌, ◌++◌, IfOk, Ok, OnOk, string_bytes};
ghost use Rattle.std.specs.List.{flat_map};
ghost use Rattle.fs_path.specs.Database.{database_text};
ghost use Rattle.fs_path.specs.Document.{document_of, document_text, reference_of, under, IsDocument, IsDocumentOf};
ghost use Rattle.fs_path.specs.Spelling.{slashed};
ghost use Rattle.fs_path.specs.declared.name.Root.{Root};

use crate::ids::Ids;
use crate::name::{DocName, Root};
use crate::text::Text;
use std::alloc::{AllocError, Global};

/// Writes a name as requests and replies have it.
pub fn print_document(alloc: Global, name: &DocName) -> Result<Text, AllocError>
    ensures text { IfOk result (λ t. t ≡ document_text name.now) }

    // A document's name is read back, as a reference and in its own root.
    ensures again { IsDocument name.now → IfOk result (λ t. reference_of t ≡ Ok name.now) }
    ensures in_root { (root : Root) → IsDocumentOf root name.now → IfOk result (λ t. document_of root t ≡ Ok name.now) }
{
    name_text(alloc, name)
}

fn name_text(alloc: Global, name: &DocName) -> Result<Text, AllocError>
    ensures { IfOk result (λ t. t ≡ document_text name.now) }
{
    let head = name.head();
    let spelled = "projects//databases//documents".len() - 1;
    let mut text = String::with_capacity(alloc, head.path_len().saturating_add(spelled))?;
    text.push_str("projects/")?;
    text.push_str(head.project)?;
    text.push_str("/databases/")?;
    text.push_str(head.database)?;
    text.push_str("/documents")?;
    head.push_ids(&mut text)?;
    Ok(Text::of(text))
}

/// Writes the name of a root's database: `projects/{project}/databases/{database}`. (v1 reference, `CommitRequest`,
/// `database`.)
pub fn print_database(alloc: Global, root: &Root) -> Result<Text, AllocError>
    ensures { IfOk result (λ t. t ≡ database_text root.now) }
{
    let mut text = String::from_str(alloc, "projects/")?;
    text.push_str(root.project.as_str())?;
    text.push_str("/databases/")?;
    text.push_str(root.database.as_str())?;
    Ok(Text::of(text))
}

/// Writes the name of what has collections: the root's documents, or the one that has these ids. (v1 reference,
/// `RunQueryRequest`, `parent`.)
pub fn print_parent(alloc: Global, root: &Root, ids: &Ids) -> Result<Text, AllocError>
    ensures { IfOk result (λ t. t ≡ document_text (under root.now ids.now)) }
{
    let mut text = print_database(alloc, root)?.into_string();
    text.push_str("/documents")?;
    push_ids(&mut text, ids.as_slice())?;
    Ok(Text::of(text))
}

/// Adds ids, each behind a slash.
fn push_ids(text: &mut String, ids: &[Text]) -> Result<(), AllocError>
    ensures { OnOk result (string_bytes text.new ≡ string_bytes text.old ++ flat_map slashed ids.now) }
{
    for id in ids {
        text.push_str("/")?;
        text.push_str(id.as_str())?;
    }
    Ok(())
}
