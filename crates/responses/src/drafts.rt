//! Runs of a program as they were found, and the test that its points are of them.

ghost use Rattle.std.specs.Prelude.{ℕ, ◌≡◌, ◌+◌, ◌-◌, ◌/◌, Bool, Some, option_to_list, slice_get, true};
ghost use Rattle.std.specs.List.{list_all};
ghost use Rattle.program_rules.specs.Views.{count_of};
ghost use Rattle.response.specs.Asking.{Asks_nothing};
ghost use Rattle.responses.specs.Asks.{asked};
ghost use Rattle.responses.specs.Outlines.{AreDrawn, AsksSo, FitsView, Gives, IsFit, StaysSo, targets_of};

use crate::asks::{Ask, ask_of, badge_of};
use crate::outlines::Run;
use program_rules::{PointView, PointViews, SeenPoint};

/// Runs of a program, and of each point which one is its own, by its place.
#[derive(Drop)]
pub(crate) struct Draft {
    pub(crate) runs: Vec<Run>,
    pub(crate) places: Vec<u32>,
}

/// Whether a way leads to a run.
fn leads_to(way: Option<u32>, place: u32) -> bool
    ensures { result ≡ true → way ≡ Some place }
{
    match way {
        Some(other) => other == place,
        None => false,
    }
}

/// Whether nothing is asked.
fn asks_nothing(ask: Ask) -> bool
    ensures { result ≡ true → asked ask ≡ Asks_nothing }
{
    match ask {
        Ask::Nothing => true,
        _ => false,
    }
}

/// Whether the same is asked.
fn is_same(ask: Ask, other: Ask) -> bool
    ensures { result ≡ true → ask ≡ other }
{
    ask == other
}

impl Run {
    /// Whether one of its ways leads to a run.
    fn leads_to(&self, place: u32) -> bool
        ensures { result ≡ true → (test : ℕ → Bool) → list_all test (targets_of self.now) ≡ true → test place ≡ true }
    {
        if leads_to(self.taken, place) {
            return true;
        }
        leads_to(self.next, place)
    }
}

impl Draft {
    /// The run of a point, if there is such a point.
    fn place(&self, point: u32) -> Option<u32>
        ensures { result ≡ slice_get self.now.places.items point }
    {
        match self.places.get(point as usize) {
            Some(place) => Some(*place),
            None => None,
        }
    }

    /// The run to which a way leads from the point before, if there is one.
    fn place_after(&self, point: u32) -> Option<u32>
        ensures { (p : ℕ) → result ≡ Some p → slice_get self.now.places.items (point + 1) ≡ Some p }
    {
        self.place(point.checked_add(1)?)
    }

    /// The run of the point at an address, if there is one.
    fn place_of(&self, base: u32, address: u32) -> Option<u32>
        ensures { result ≡ slice_get self.now.places.items ((address - base) / 4) }
    {
        self.place(address.saturating_sub(base) / 4)
    }

    /// Whether a way from a point leads where one from its run does, if there is one.
    fn follows(&self, base: u32, run: &Run, way: Option<u32>) -> bool
        ensures { result ≡ true → (place : ℕ → ℕ) → Gives self.now.places.items place → (test : ℕ → Bool) → list_all test (targets_of run.now) ≡ true
            → list_all (λ address. test (place ((address - base) / 4))) (option_to_list way) ≡ true }
    {
        let Some(address) = way else {
            return true;
        };
        match self.place_of(base, address) {
            Some(place) => run.leads_to(place),
            None => false,
        }
    }

    /// Whether a way from a point stays in its run, if there is one.
    fn stays(&self, base: u32, run: &Run, way: Option<u32>) -> bool
        ensures { result ≡ true → (place : ℕ → ℕ) → Gives self.now.places.items place → (test : ℕ → Bool) → test run.now.place ≡ true
            → list_all (λ address. test (place ((address - base) / 4))) (option_to_list way) ≡ true }
    {
        let Some(address) = way else {
            return true;
        };
        match self.place_of(base, address) {
            Some(place) => place == run.place,
            None => false,
        }
    }

    /// Whether a point asks what its run asks, and leads where that does.
    fn asks_so(&self, base: u32, run: &Run, point: u32, seen: &SeenPoint) -> bool
        ensures { result ≡ true → (place : ℕ → ℕ) → Gives self.now.places.items place → AsksSo base place point seen.now run.now }
    {
        if !is_same(ask_of(seen), run.ask) {
            return false;
        }
        if badge_of(seen.capability) != run.badge {
            return false;
        }
        if !self.follows(base, run, seen.taken) {
            return false;
        }
        if !self.follows(base, run, seen.next) {
            return false;
        }
        if asks_nothing(run.ask) {
            return true;
        }
        match self.place_after(point) {
            Some(place) => leads_to(run.next, place),
            None => false,
        }
    }

    /// Whether a point asks nothing, and stays in its run.
    fn stays_so(&self, base: u32, run: &Run, seen: &SeenPoint) -> bool
        ensures { result ≡ true → (place : ℕ → ℕ) → Gives self.now.places.items place → StaysSo base place seen.now run.now }
    {
        if !asks_nothing(ask_of(seen)) {
            return false;
        }
        if !self.stays(base, run, seen.taken) {
            return false;
        }
        self.stays(base, run, seen.next)
    }

    /// Whether a point fits to its run, which is clear, by what is seen there.
    fn fits_view(&self, base: u32, run: &Run, point: u32, view: &PointView) -> bool
        ensures { result ≡ true → (place : ℕ → ℕ) → Gives self.now.places.items place → FitsView base place point view.now run.now }
    {
        match view {
            PointView::Unknown => true,
            PointView::Unclear => false,
            PointView::GoesOn => match self.place_after(point) {
                Some(place) => place == run.place,
                None => false,
            },
            PointView::Seen(seen) => {
                if self.asks_so(base, run, point, seen) {
                    return true;
                }
                self.stays_so(base, run, seen)
            }
        }
    }

    /// Whether a point has a run to which it fits.
    fn is_fit(&self, base: u32, point: u32, view: &PointView) -> bool
        ensures { result ≡ true → (place : ℕ → ℕ) → Gives self.now.places.items place → IsFit base self.now.runs.items place point view.now }
    {
        let Some(place) = self.place(point) else {
            return false;
        };
        let Some(run) = self.runs.get(place as usize) else {
            return false;
        };
        if run.place != place {
            return false;
        }
        if !run.is_clear {
            return true;
        }
        self.fits_view(base, run, point, view)
    }

    /// Whether all points of a program have.
    pub(crate) fn fits(&self, base: u32, views: &PointViews) -> bool
        ensures { result ≡ true → (place : ℕ → ℕ) → Gives self.now.places.items place
            → AreDrawn base (count_of views.now) views.now self.now.runs.items place }
    {
        for point in 0..views.len() {
            let Ok(here) = u32::try_from(point) else {
                return false;
            };
            if !self.is_fit(base, here, &views.at(point)) {
                return false;
            }
        }
        true
    }
}
