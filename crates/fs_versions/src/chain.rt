//! The chain of a document.
use fs_history::Version;
use fs_time::Micros;
use fs_value::Document;
use std::alloc::{AllocError, Global};
use std::marker::Model;

/// The versions of one document, by rising time, and room for more of them. Contracts see both:
///
///     after pushes at 5 and 7     the versions of 5 and 7, and room for none
///     after reserve(1)            the same versions, and room for one or more
///     after a push at 9           the versions of 5, 7 and 9, and room for one less
#[derive(Drop)]
pub(crate) struct Chain {
    versions: Vec<Version>,
}

impl Model for Chain {
    ghost use Rattle.std.specs.Prelude.{◌-◌};
    ghost use Rattle.std.specs.Vec.{vec_len, vec_capacity};
    ghost use Rattle.fs_versions.specs.Chained.{Chained, chained_code};

    ghost Value = { Chained };

    ghost coded = { chained_code };

    ghost use Rattle.fs_versions.specs.Rising.{TimesRise};

    ghost view = { λ c. record { versions = c.versions.items; room = vec_capacity c.versions - vec_len c.versions } };

    ghost invariant = { λ c. TimesRise c.versions.items };
}

impl Chain {
    ghost use Rattle.std.specs.Prelude.{◌≡◌, ◌↔◌, ◌-◌, ◌<◌, ◌≤◌, ◌∷◌, ◌++◌, [], OnOk, IfSome, IsNone, IsTrue, drop, length};
    ghost use Rattle.std.specs.Option.{option_copied};
    ghost use Rattle.fs_versions.specs.Chain.{shown_at, last_document, cut};
    ghost use Rattle.fs_versions.specs.Rising.{TimesRise, AreBefore};
    ghost use Rattle.fs_versions.specs.Sound.{IsSplit};

    // No versions.
    pub(crate) fn new(alloc: Global) -> Chain
        ensures { result.versions ≡ [] }
    {
        Chain {
            versions: Vec::new(alloc),
        }
    }

    pub(crate) fn is_empty(&self) -> bool
        ensures { IsTrue result ↔ (self.now.versions ≡ []) }
    {
        self.versions.is_empty()
    }

    // The versions, and none where there are none.
    pub(crate) fn listed(&self) -> Option<&[Version]>
        ensures some { IfSome result (λ vs. vs.now ≡ self.now.versions) }
        ensures none { IsNone result ↔ (self.now.versions ≡ []) }
        ensures rising { TimesRise self.now.versions }
    {
        if self.versions.is_empty() {
            None
        } else {
            Some(self.versions.as_slice())
        }
    }

    // Makes room for more versions, after which so many pushes take no memory.
    pub(crate) fn reserve(&mut self, more: usize) -> Result<(), AllocError>
        ensures ok { OnOk result (more ≤ self.new.room) }
        ensures same { self.new.versions ≡ self.old.versions }
        ensures room { self.old.room ≤ self.new.room }
    {
        self.versions.reserve(more)
    }

    // Adds a version that is later than all that are there, where there is room.
    pub(crate) fn push(&mut self, version: Version)
        requires later { AreBefore self.old.versions version.time }
        requires room { 0 < self.old.room }
        ensures { self.new ≡ record { versions = self.old.versions ++ version ∷ []; room = self.old.room - 1 } }
    {
        self.versions.push_reserved(version);
    }

    // How many versions are at or before a time.
    fn count_by(&self, time: Micros) -> usize
        ensures { IsSplit self.now.versions time result }
    {
        self.versions
            .as_slice()
            .partition_point(|version| version.time <= time)
    }

    // The document of the newest version at or before a time.
    pub(crate) fn shown(&self, time: Micros) -> Option<&Document>
        ensures { option_copied result ≡ shown_at time self.now.versions }
    {
        let count = self.count_by(time);
        if count == 0 {
            return None;
        }
        self.versions[count - 1].after.as_ref()
    }

    // That of the last.
    pub(crate) fn newest(&self) -> Option<&Document>
        ensures { option_copied result ≡ last_document self.now.versions }
    {
        let count = self.versions.len();
        if count == 0 {
            return None;
        }
        self.versions[count - 1].after.as_ref()
    }

    // How many versions in front aren't kept from a floor on.
    fn count_gone(&self, floor: Micros) -> usize
        ensures within { result ≤ length self.now.versions }
        ensures others { cut floor self.now.versions ≡ drop result self.now.versions }
    {
        let count = self.count_by(floor);
        if count > 0 && self.versions[count - 1].after.is_some() {
            return count - 1;
        }
        count
    }

    // Drops what isn't kept from a floor on.
    pub(crate) fn cut(&mut self, floor: Micros)
        ensures { self.new.versions ≡ cut floor self.old.versions }
    {
        let gone = self.count_gone(floor);
        if gone > 0 {
            let left = self.versions.len() - gone;
            self.versions.rotate_left(gone);
            self.versions.truncate(left);
        }
    }
}
