//! What the staged events of a target come to at a time.
ghost use Rattle.std.specs.Prelude.{◌≡◌, ◌∷◌, [], OnOk, map};
ghost use Rattle.std.specs.FinMap as finite;
ghost use Rattle.fs_target.specs.Latest.{with_latest};
ghost use Rattle.fs_target.specs.Staged.{up_to};

use crate::event::TimedEvent;
use crate::keys::add_keys;
use fs_path::DocName;
use fs_time::Micros;
use std::alloc::{AllocError, Global};
use std::collections::{BTreeMap, BTreeSet};
use std::marker::Model;

/// The last event of each name up to a time, so that a look-up walks over no others.
///
///     5 c/a {n: 2} inside, 6 c/b outside, 7 c/a {n: 3} inside      up to 6: c/a of 5, c/b of 6
#[derive(Drop)]
pub(crate) struct Latest<'a> {
    events: BTreeMap<DocName, &'a TimedEvent>,
}

impl<'a> Model for Latest<'a> {
    ghost use Rattle.std.specs.FinMap as map;
    ghost use Rattle.std.specs.Prelude as list;
    ghost use Rattle.fs_path.specs.NameOrder.{name_cmp};
    ghost use Rattle.fs_target.specs.Latest.{latest_code};
    ghost use Rattle.fs_target.specs.declared.event.TimedEvent.{TimedEvent};

    ghost Value = { map.FinMap name_cmp TimedEvent };

    ghost coded = { latest_code };

    ghost view = { λ l. map.from_entries (list.map (λ e. (e.0, e.1.now)) l.events.entries) };
}

// Notes an event, if it isn't behind a time, as the last of its name.
fn note<'a>(
    alloc: Global,
    events: &mut BTreeMap<DocName, &'a TimedEvent>,
    event: &'a TimedEvent,
    time: Micros,
) -> Result<(), AllocError>
    ensures { OnOk result (finite.from_entries (map (λ e. (e.0, e.1.now)) events.new.entries)
        ≡ with_latest (up_to time (event.now ∷ [])) (finite.from_entries (map (λ e. (e.0, e.1.now)) events.old.entries))) }
{
    if time < event.time {
        return Ok(());
    }
    events.insert(event.name.copy(alloc)?, event)?;
    Ok(())
}

impl<'a> Latest<'a> {
    ghost use Rattle.std.specs.Prelude.{◌≡◌, IfOk, IsTrue, OnOk, is_some};
    ghost use Rattle.std.specs.BTreeSet.{contains};
    ghost use Rattle.std.specs.FinMap.{get};
    ghost use Rattle.std.specs.Option.{option_copied};
    ghost use Rattle.fs_path.specs.NameOrder.{name_cmp};
    ghost use Rattle.fs_path.specs.declared.name.DocName.{DocName};
    ghost use Rattle.fs_target.specs.Latest.{latest_of};
    ghost use Rattle.fs_target.specs.Staged.{up_to};

    /// Of staged events, by rising time.
    pub(crate) fn of(
        alloc: Global,
        staged: &'a [TimedEvent],
        time: Micros,
    ) -> Result<Latest<'a>, AllocError>
        ensures { IfOk result (λ l. l ≡ latest_of (up_to time staged.now)) }
    {
        let mut events = BTreeMap::new(alloc);
        for event in staged {
            note(alloc, &mut events, event, time)?;
        }
        Ok(Latest { events })
    }

    /// The last event of a name.
    pub(crate) fn get(&self, name: &DocName) -> Option<&'a TimedEvent>
        ensures { option_copied result ≡ get self.now name.now }
    {
        self.events.get(name).copied()
    }

    /// Adds the names of these events.
    pub(crate) fn add_names(
        &self,
        alloc: Global,
        names: &mut BTreeSet<DocName>,
    ) -> Result<(), AllocError>
        ensures kept { (name : DocName) → IsTrue (contains name_cmp names.old name) → IsTrue (contains name_cmp names.new name) }
        ensures added { OnOk result ((name : DocName) → IsTrue (is_some (get self.now name)) → IsTrue (contains name_cmp names.new name)) }
    {
        add_keys(alloc, &self.events, names)
    }
}
