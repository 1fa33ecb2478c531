//! The documents that a client has of the targets that it listens to.
use crate::cached::{CachedDocument, changed_for, left_by};
use crate::changes::{
    all_left_by, forget_changes, forget_standing, give_back_all, put_all, staged,
};
use crate::places::{Places, insert, lend, make_place, standing};
use fs_path::DocName;
use fs_query::ListenMessage;
use fs_time::Micros;
use fs_value::{Document, Documents};
use std::alloc::{AllocError, Global};
use std::collections::BTreeMap;
use std::marker::Model;
use std::mem;

/// The documents that a client has of the targets that it listens to, one of each name, with the targets whose views have it: those of its
/// last snapshot, which are taken, and those that it was told since, which are staged for the next one.
///
///     two targets, 1 and 2              taken                   staged
///     c/a is {n: 1} for 1 and 2                                 c/a {n: 1} of 1 and 2
///     a snapshot is taken at 3          c/a {n: 1} of 1 and 2   the same
///     c/a is {n: 2} for 2, 1 is left    c/a {n: 1} of 1 and 2   c/a {n: 2} of 2
///     the link is lost                  c/a {n: 1} of 1 and 2   the same
///     1 is listened to no longer        c/a {n: 1} of 2         the same
///
/// What is staged is kept as what differs from what is taken, with a place there already: so a snapshot costs what was told since the last,
/// and takes no memory.
#[derive(Drop)]
pub struct Cache {
    alloc: Global,
    // an empty place where something is staged at a name that has no document yet
    taken: Places,
    // what is to stand at places, or that nothing is
    changes: Places,
    snapshot: Option<Micros>,
}

impl Model for Cache {
    ghost use Rattle.fs_cache.specs.Cached.{Cached, cached_code};

    ghost Value = { Cached };

    ghost coded = { cached_code };

    ghost use Rattle.fs_cache.specs.Places.{IsKept, staged_in, standing_in};

    ghost view = { λ c. record { taken = standing_in c.taken.entries; staged = staged_in c.taken.entries c.changes.entries; snapshot = c.snapshot } };

    ghost invariant = { λ c. IsKept c.taken.entries c.changes.entries };
}

impl Cache {
    ghost use Rattle.std.specs.Prelude.{◌≡◌, IfOk, IfSome, IsTrue, OnErr, OnOk, Option, Some, map};
    ghost use Rattle.std.specs.FinMap.{get, is_sorted, values};
    ghost use Rattle.std.specs.Option.{option_copied};
    ghost use Rattle.fs_path.specs.NameOrder.{name_cmp};
    ghost use Rattle.fs_path.specs.declared.name.DocName.{DocName};
    ghost use Rattle.fs_value.specs.Named.{by_name};
    ghost use Rattle.fs_cache.specs.Cached.{all_left_by, at_name, changed, changed_for, documents, forgotten, left_by, none_cached, taken_at, thrown, with_cached};

    /// No documents, and no snapshot. The allocator serves those that come.
    pub fn new(alloc: Global) -> Cache
        ensures { result ≡ none_cached }
    {
        Cache {
            alloc,
            taken: BTreeMap::new(alloc),
            changes: BTreeMap::new(alloc),
            snapshot: None,
        }
    }

    /// The time of the last snapshot.
    pub fn snapshot(&self) -> Option<Micros>
        ensures { result ≡ self.now.snapshot }
    {
        self.snapshot
    }

    /// The document of a name in the last snapshot.
    pub fn get(&self, name: &DocName) -> Option<&Document>
        ensures value { option_copied result ≡ get (documents self.now) name.now }
        ensures named { IfSome result (λ d. d.now.name ≡ name.now) }
    {
        match standing(&self.taken, name) {
            Some(cached) => Some(&cached.document),
            None => None,
        }
    }

    /// Each document of the last snapshot bears the name at which it stands.
    pub fn documents_are_named(&self)
        ensures { (name : DocName) → IfSome (get (documents self.now) name) (λ d. d.name ≡ name) }
    {
        // Whose field is looked at, what always holds of it is known.
        let _ = &self.taken;
    }

    /// The documents of the last snapshot, by rising names. None is copied.
    pub fn lent(&self, alloc: Global) -> Result<Vec<&Document>, AllocError>
        ensures value { IfOk result (λ v. map (λ d. d.now) v.items ≡ values (documents self.now)) }
        ensures rise { IfOk result (λ v. IsTrue (is_sorted name_cmp (by_name (map (λ d. d.now) v.items)))) }
    {
        let mut lent = Vec::new(alloc);
        for place in self.taken.values() {
            lend(&mut lent, place)?;
        }
        Ok(lent)
    }

    /// The documents of the last snapshot, by rising names. They share their fields with those here.
    pub fn documents(&self, alloc: Global) -> Result<Documents, AllocError>
        ensures value { IfOk result (λ ds. ds ≡ values (documents self.now)) }
        ensures rise { IfOk result (λ ds. IsTrue (is_sorted name_cmp (by_name ds))) }
    {
        Documents::copied(alloc, self.lent(alloc)?.as_slice())
    }

    /// Stages what a message tells of targets, all of which are listened to. What was taken stays as it is.
    pub fn change(&mut self, alloc: Global, m: &ListenMessage) -> Result<(), AllocError>
        ensures ok { OnOk result (self.new ≡ changed m.now self.old) }
        ensures err { OnErr result (self.new ≡ self.old) }
    {
        match m {
            ListenMessage::Changed {
                document,
                targets,
                left,
            } => self.set(alloc, document, targets.as_slice(), left.as_slice()),
            ListenMessage::Deleted { name, left, .. } => self.leave(alloc, name, left.as_slice()),
            ListenMessage::Removed { name, left, .. } => self.leave(alloc, name, left.as_slice()),
            ListenMessage::Reset { targets } => self.leave_all(alloc, targets.as_slice()),
            ListenMessage::Remove { targets, .. } => self.leave_all(alloc, targets.as_slice()),
            _ => Ok(()),
        }
    }

    /// A snapshot of this time is taken: what is staged is what the client has. It takes no memory.
    pub fn take(&mut self, time: Micros)
        ensures { self.new ≡ taken_at time self.old }
    {
        let changes = mem::replace(&mut self.changes, BTreeMap::new(self.alloc));
        put_all(&mut self.taken, changes);
        self.snapshot = Some(time);
    }

    /// What was told since the last snapshot is thrown away, as where the link is lost. It takes no memory.
    pub fn throw(&mut self)
        ensures { self.new ≡ thrown self.old }
    {
        let changes = mem::replace(&mut self.changes, BTreeMap::new(self.alloc));
        give_back_all(&mut self.taken, changes);
    }

    /// A target is listened to no longer: what no other target has goes. It takes no memory, and goes over all documents.
    pub fn forget(&mut self, target: u32)
        ensures { self.new ≡ forgotten target self.old }
    {
        forget_standing(&mut self.taken, &self.changes, target);
        forget_changes(&mut self.changes, target);
    }

    // Stages what is to stand at a name.
    fn stage(
        &mut self,
        alloc: Global,
        name: &DocName,
        next: Option<CachedDocument>,
    ) -> Result<(), AllocError>
        requires { IfSome next (λ c. c.document.name ≡ name.now) }
        ensures ok { OnOk result (self.new ≡ record self.old { staged = with_cached self.old.staged name.now next }) }
        ensures err { OnErr result (self.new ≡ self.old) }
    {
        make_place(alloc, &mut self.taken, name)?;
        insert(alloc, &mut self.changes, name, next)?;
        Ok(())
    }

    /// Stages a document that is another for some targets, and gone for others. One that is another for none stays as it was for those that
    /// have it yet.
    pub fn set(
        &mut self,
        alloc: Global,
        document: &Document,
        targets: &[u32],
        gone: &[u32],
    ) -> Result<(), AllocError>
        ensures ok { OnOk result (self.new ≡ record self.old { staged = at_name self.old.staged document.now.name (changed_for document.now targets.now gone.now) }) }
        ensures err { OnErr result (self.new ≡ self.old) }
    {
        let had = staged(&self.taken, &self.changes, &document.name);
        let next = changed_for(alloc, document, targets, gone, had)?;
        self.stage(alloc, &document.name, next)
    }

    /// Stages that some targets have the document of a name no longer.
    pub fn leave(&mut self, alloc: Global, name: &DocName, gone: &[u32]) -> Result<(), AllocError>
        ensures ok { OnOk result (self.new ≡ record self.old { staged = at_name self.old.staged name.now (left_by gone.now) }) }
        ensures err { OnErr result (self.new ≡ self.old) }
    {
        let Some(had) = staged(&self.taken, &self.changes, name) else {
            return Ok(());
        };
        let next = left_by(alloc, gone, Some(had))?;
        self.stage(alloc, name, next)
    }

    /// Stages that some targets have no document any longer. It goes over all documents.
    pub fn leave_all(&mut self, alloc: Global, gone: &[u32]) -> Result<(), AllocError>
        ensures ok { OnOk result (self.new ≡ record self.old { staged = all_left_by gone.now self.old.staged }) }
        ensures err { OnErr result (self.new ≡ self.old) }
    {
        self.changes = all_left_by(alloc, gone, &self.taken, &self.changes)?;
        Ok(())
    }
}
