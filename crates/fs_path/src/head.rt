//! A name as a text has it, before it is copied.
ghost use Rattle.std.specs.Prelude.{◌≡◌, false};
ghost use Rattle.fs_path.specs.Segment.{has_slash};

use crate::name::Root;
use crate::segment::first_segment;
use std::alloc::AllocError;

/// The parts of a name: its project, its database, and the text of its ids, if there are any.
#[derive(Clone, Copy)]
pub(crate) struct Head<'a> {
    pub project: &'a str,
    pub database: &'a str,
    pub ids: Option<&'a str>,
    ghost whole_project: { has_slash project.now ≡ false },
    ghost whole_database: { has_slash database.now ≡ false },
}

impl<'a> Head<'a> {
    ghost use Rattle.std.specs.Prelude.{◌≡◌, ◌+◌, ◌++◌, ◌-◌, ◌^◌, OnOk, Some, length, min, string_bytes};
    ghost use Rattle.std.specs.Option.{option_copied, option_map};
    ghost use Rattle.fs_path.specs.Cursor.{left, after_slash};
    ghost use Rattle.fs_path.specs.Head.{head_name};
    ghost use Rattle.fs_path.specs.Segment.{segments};
    ghost use Rattle.fs_path.specs.Spelling.{spelled, documents, is_of};
    ghost use Rattle.fs_path.specs.Name.{name_in, IsPath};

    /// The parts of a text as `demo/(default)/c/a`.
    pub fn of_path(path: &'a str) -> Head<'a>
        requires { IsPath path.now }
        ensures { head_name result ≡ name_in path.now }
    {
        let (project, rest) = first_segment(path);
        let (database, ids) = match rest {
            Some(rest) => first_segment(rest),
            None => first_segment(path),
        };
        Head {
            project,
            database,
            ids,
        }
    }

    /// The parts of a text that begins as `projects/{project}/databases/{database}`, and in place of the ids what stands
    /// behind that, if there is a slash.
    pub fn of_database(text: &'a str) -> Option<Head<'a>>
        ensures { option_map head_name result ≡ spelled Some (segments text.now) }
    {
        let (projects, rest) = first_segment(text);
        let (project, rest) = first_segment(rest?);
        let (databases, rest) = first_segment(rest?);
        let (database, ids) = first_segment(rest?);
        if projects != "projects" || databases != "databases" {
            return None;
        }
        if project.is_empty() || database.is_empty() {
            return None;
        }
        Some(Head {
            project,
            database,
            ids,
        })
    }

    /// The parts of a name, or `None` where a text isn't `projects/{project}/databases/{database}/documents`, alone or
    /// followed by a slash and a path.
    pub fn of_text(text: &'a str) -> Option<Head<'a>>
        ensures { option_map head_name result ≡ spelled documents (segments text.now) }
    {
        let head = Head::of_database(text)?;
        let (documents, ids) = first_segment(head.ids?);
        if documents != "documents" {
            return None;
        }
        Some(Head {
            project: head.project,
            database: head.database,
            ids,
        })
    }

    /// Whether the name is in the root's database.
    pub fn is_of(&self, root: &Root) -> bool
        ensures { result ≡ is_of root.now (head_name self.now) }
    {
        self.project == root.project.as_str() && self.database == root.database.as_str()
    }

    /// The number of bytes of `demo/(default)/c/a`, or the last number where there are more.
    pub fn path_len(&self) -> usize
        ensures { result ≡ min (length self.now.project.now + 1 + length self.now.database.now + left (option_copied self.now.ids)) (2 ^ 64 - 1) }
    {
        let head = self
            .project
            .len()
            .saturating_add(1)
            .saturating_add(self.database.len());
        match self.ids {
            Some(ids) => head.saturating_add(1).saturating_add(ids.len()),
            None => head,
        }
    }
    /// Adds the ids to a text that ends before their slash.
    pub fn push_ids(&self, text: &mut String) -> Result<(), AllocError>
        ensures { OnOk result (string_bytes text.new ≡ string_bytes text.old ++ after_slash (option_copied self.now.ids)) }
    {
        if let Some(ids) = self.ids {
            text.push_str("/")?;
            text.push_str(ids)?;
        }
        Ok(())
    }
}
