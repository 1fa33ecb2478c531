//! The place of one name.
ghost use Rattle.std.specs.Prelude.{◌≡◌};
ghost use Rattle.fs_target.specs.Places.{lasts};

use fs_time::Micros;
use fs_value::Document;

/// What stands at a name, and how long its place has to stay.
#[derive(Drop)]
pub(crate) struct Place {
    pub(crate) document: Option<Document>,
    /// The greatest time of an event that the place was made for, if it was made for one.
    pub(crate) until: Option<Micros>,
}

// Whether a place that stays until one time is there at another.
fn lasts(time: Micros, until: Option<Micros>) -> bool
    ensures { result ≡ lasts time until }
{
    match until {
        Some(until) => time <= until,
        None => false,
    }
}

impl Place {
    ghost use Rattle.std.specs.Prelude.{◌≡◌, ℤ, false, None, IsTrue, int_lt};
    ghost use Rattle.fs_target.specs.Places.{lasts};

    /// Stays until a time.
    pub(crate) fn stay(&mut self, time: Micros)
        ensures document { self.new.document ≡ self.old.document }
        ensures stays { IsTrue (lasts time self.new.until) }
        ensures kept { (t : ℤ) → IsTrue (lasts t self.old.until) → IsTrue (lasts t self.new.until) }
    {
        if !lasts(time, self.until) {
            self.until = Some(time);
        }
    }

    /// Whether nothing stands there, nor is to be put there behind a time.
    pub(crate) fn is_free(&self, time: Micros) -> bool
        ensures empty { IsTrue result → self.now.document ≡ None }
        ensures over { IsTrue result → (t : ℤ) → IsTrue (int_lt time t) → lasts t self.now.until ≡ false }
    {
        if self.document.is_some() {
            return false;
        }
        match self.until {
            Some(until) => until <= time,
            None => true,
        }
    }
}
