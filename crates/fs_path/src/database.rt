//! Names of databases.
ghost use Rattle.std.specs.Prelude.{◌≡◌, ◌↔◌, Ok, Err};
ghost use Rattle.fs_path.specs.Database.{database_of, database_text, IsDatabase};
ghost use Rattle.fs_path.specs.declared.name.Root.{Root};

use crate::error::PathError;
use crate::head::Head;
use crate::name::Root;

/// Whether a text names the root's database: `projects/{project}/databases/{database}`. Another form is `BadPrefix`, and
/// another database `WrongDatabase`. (v1 reference, `CommitRequest`, `database`.)
pub fn check_database(root: &Root, text: &str) -> Result<(), PathError>
    ensures value { result ≡ database_of root.now text.now }

    // The root's own name is taken, and no other text.
    ensures taken { (result ≡ Ok tt) ↔ (IsDatabase root.now × (text.now ≡ database_text root.now)) }

    // The first refusal comes exactly where the text is the name of no database.
    ensures prefix { (result ≡ Err PathError.BadPrefix) ↔ ((r : Root) → IsDatabase r → text.now ≡ database_text r → ⊥) }
{
    check_named(root, text)
}

fn check_named(root: &Root, text: &str) -> Result<(), PathError>
    ensures { result ≡ database_of root.now text.now }
{
    let Some(head) = Head::of_database(text) else {
        return Err(PathError::BadPrefix);
    };
    if let Some(_) = head.ids {
        return Err(PathError::BadPrefix);
    }
    if !head.is_of(root) {
        return Err(PathError::WrongDatabase);
    }
    Ok(())
}
