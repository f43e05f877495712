//! Loss of signal.

ghost use Rattle.std.specs.Prelude.{◌≡◌, ◌≤◌, ℕ, List, [], ◌∷◌, Some, None, if◌then◌else◌};
ghost use Rattle.xrf_cavm.specs.Watch.{Told, Looked, Reset, Watches, same_signal, is_news, is_lost};

use std::marker::Model;
use xrf_base::Tick;
use xrf_ctl::Signal;

// The signals of the other site's two sectors.
type Look = (Option<Signal>, Option<Signal>);

/// The last look at the other site's signals, and the tick of the last change.
#[derive(Clone, Copy)]
pub struct Watch {
    look: Option<Look>,
    change: Tick,
}

impl Model for Watch {
    ghost use Rattle.xrf_cavm.specs.Watch.{WatchState};

    ghost Value = { WatchState };

    ghost view = { λ w. record { look = w.look; change = w.change } };

    ghost inverse = { λ w. record { look = w.look; change = w.change } };
}

fn is_same(a: &Option<Signal>, b: &Option<Signal>) -> bool
    ensures { result ≡ same_signal a.now b.now }
{
    match (a, b) {
        (None, None) => true,
        (Some(a), Some(b)) => a.inc == b.inc && a.counter == b.counter && a.cursor == b.cursor,
        _ => false,
    }
}

fn is_news(look: &Look, before: &Option<Look>) -> bool
    ensures { result ≡ is_news look.now before.now }
{
    match before {
        None => true,
        Some(before) => !(is_same(&look.0, &before.0) && is_same(&look.1, &before.1)),
    }
}

impl Watch {
    /// A watch that begins at a tick, before its first look.
    pub fn new(now: Tick) -> Watch
        ensures look { result.look ≡ None }
        ensures change { result.change ≡ now }
        ensures watches { Watches result now [] }
    {
        Watch {
            look: None,
            change: now,
        }
    }

    /// Takes a look, the signals of the other site's two sectors.
    pub fn look(&mut self, first: Option<Signal>, second: Option<Signal>, now: Tick)
        requires { self.old.change ≤ now }
        ensures look { self.new.look ≡ Some (first, second) }
        ensures change { self.new.change ≡ (if is_news (first, second) self.old.look then now else self.old.change) }
        ensures watches { (start : ℕ) (told : List Told) → Watches self.old start told → Watches self.new start (Looked (first, second) now ∷ told) }
    {
        let look = (first, second);
        if is_news(&look, &self.look) {
            self.change = now;
        }
        self.look = Some(look);
    }

    /// Takes the present tick for that of the last change.
    pub fn reset(&mut self, now: Tick)
        requires { self.old.change ≤ now }
        ensures look { self.new.look ≡ self.old.look }
        ensures change { self.new.change ≡ now }
        ensures watches { (start : ℕ) (told : List Told) → Watches self.old start told → Watches self.new start (Reset now ∷ told) }
    {
        self.change = now;
    }

    /// The tick of the last change.
    pub fn last_change(&self) -> Tick
        ensures { result ≡ self.now.change }
    {
        self.change
    }

    /// An interval or more has passed since the last change.
    pub(crate) fn is_lost(&self, interval: u32, now: Tick) -> bool
        requires { self.now.change ≤ now }
        ensures { result ≡ is_lost self.now.change interval now }
    {
        now - self.change >= interval
    }
}
