//! Finds the runs of a program: which of its points ask the same and lead to the same runs, and which ask nothing and lead to one run alone. What is found is
//! tested apart, so nothing is promised of it here.

use crate::asks::{Ask, ask_of, badge_of};
use crate::drafts::Draft;
use crate::outlines::Run;
use program_rules::{PointView, PointViews};
use std::alloc::{AllocError, Global};

/// How often points that ask the same are told apart where they lead to different runs, before all are.
const ROUNDS: usize = 4;

/// How often the points that ask nothing are gone through in a round, before each of them is a run of its own.
const SWEEPS: usize = 8;

/// The points at which stretches end, as their places tell: from there ways lead elsewhere, or something is asked. All points of a stretch come to its end.
#[derive(Drop)]
struct Ends<'v> {
    base: u32,
    views: &'v PointViews,
    points: Vec<u32>,
    /// Of each point: the end of its stretch, by its place.
    places: Vec<u32>,
}

/// What is seen at the end of a stretch, and to which stretches the ways from there lead.
#[derive(Clone, Copy)]
struct End {
    is_clear: bool,
    ask: Ask,
    badge: u32,
    taken: Option<usize>,
    next: Option<usize>,
}

/// What is asked, in an order: the kind, the object or line, and the badge.
type AskKey = (u32, u32, u32);

/// The run of each stretch, by the place of one that has it: of one that asks nothing there may be none yet.
#[derive(Drop)]
struct Kinds<'e, 'v> {
    ends: &'e Ends<'v>,
    /// Of each stretch: the first one that asks the same, or itself.
    leaders: Vec<usize>,
    /// Of each stretch: whether those that ask the same as it are told apart.
    apart: Vec<bool>,
    kinds: Vec<Option<usize>>,
}

/// The number of a point or a stretch: no program has more than 32 bits say.
fn narrow(number: usize) -> Result<u32, AllocError> {
    match u32::try_from(number) {
        Ok(number) => Ok(number),
        Err(_) => Err(AllocError),
    }
}

/// What is asked, in its order.
fn key_of(ask: Ask, badge: u32) -> AskKey {
    let (kind, object) = match ask {
        Ask::Nothing => (0, 0),
        Ask::Takes(object) => (1, object),
        Ask::Polls(object) => (2, object),
        Ask::Rings(object) => (3, object),
        Ask::Acknowledges(line) => (4, line),
        Ask::Accepts {
            endpoint,
            replies: false,
        } => (5, endpoint),
        Ask::Accepts {
            endpoint,
            replies: true,
        } => (6, endpoint),
        Ask::Looks(object) => (7, object),
        Ask::SendsTo(object) => (8, object),
        Ask::Calls(object) => (9, object),
        Ask::Tries(object) => (10, object),
        Ask::Answers => (11, 0),
    };
    (kind, object, badge)
}

impl End {
    /// Whether it asks something that is known.
    fn asks(&self) -> bool {
        self.is_clear && self.ask != Ask::Nothing
    }

    /// To which stretches its ways lead.
    fn ways(&self) -> [Option<usize>; 2] {
        [self.taken, self.next]
    }
}

impl<'v> Ends<'v> {
    /// Those of a program, by what is seen of its points.
    fn of(alloc: Global, base: u32, views: &'v PointViews) -> Result<Self, AllocError> {
        let mut points = Vec::new(alloc);
        let mut places = Vec::with_capacity(alloc, views.len())?;
        for point in 0..views.len() {
            places.push(narrow(points.len())?)?;
            let goes_on = matches!(views.at(point), PointView::GoesOn | PointView::Unknown);
            if !goes_on || point + 1 == views.len() {
                points.push(narrow(point)?)?;
            }
        }
        Ok(Ends {
            base,
            views,
            points,
            places,
        })
    }

    /// How many there are.
    fn len(&self) -> usize {
        self.points.len()
    }

    /// The end of the stretch at an address, if one is there.
    fn at_address(&self, way: Option<u32>) -> Option<usize> {
        let point = way?.saturating_sub(self.base) / 4;
        let place = self.places.get(point as usize)?;
        Some(*place as usize)
    }

    /// The point at an end.
    fn point(&self, place: usize) -> u32 {
        match self.points.get(place) {
            Some(point) => *point,
            None => u32::MAX,
        }
    }

    /// What is seen at an end.
    fn at(&self, place: usize) -> End {
        match self.views.at(self.point(place) as usize) {
            PointView::Seen(seen) => End {
                is_clear: true,
                ask: ask_of(&seen),
                badge: badge_of(seen.capability),
                taken: self.at_address(seen.taken),
                next: self.at_address(seen.next),
            },
            other => End {
                is_clear: !matches!(other, PointView::Unclear),
                ask: Ask::Nothing,
                badge: 0,
                taken: None,
                next: None,
            },
        }
    }
}

/// Of each stretch: the first one that asks the same, or itself.
fn leaders_of(alloc: Global, ends: &Ends<'_>) -> Result<Vec<usize>, AllocError> {
    let mut leaders = Vec::with_capacity(alloc, ends.len())?;
    let mut asking: Vec<(AskKey, usize)> = Vec::new(alloc);
    for place in 0..ends.len() {
        leaders.push(place)?;
        let end = ends.at(place);
        if end.asks() {
            asking.push((key_of(end.ask, end.badge), place))?;
        }
    }
    asking.sort_by_key(|asks| *asks)?;
    let mut leader: Option<(AskKey, usize)> = None;
    for (key, place) in asking {
        match leader {
            Some((other, first)) if other == key => {
                if let Some(found) = leaders.get_mut(place) {
                    *found = first;
                }
            }
            _ => leader = Some((key, place)),
        }
    }
    Ok(leaders)
}

impl<'e, 'v> Kinds<'e, 'v> {
    /// Nothing is known so far.
    fn new(alloc: Global, ends: &'e Ends<'v>) -> Result<Self, AllocError> {
        let mut apart = Vec::new(alloc);
        apart.resize(ends.len(), false)?;
        let mut kinds = Vec::new(alloc);
        kinds.resize(ends.len(), None)?;
        Ok(Kinds {
            ends,
            leaders: leaders_of(alloc, ends)?,
            apart,
            kinds,
        })
    }

    /// The run of a stretch, if that is known.
    fn kind(&self, place: usize) -> Option<usize> {
        match self.kinds.get(place) {
            Some(kind) => *kind,
            None => None,
        }
    }

    /// The run of a way, if that is known.
    fn kind_of(&self, way: Option<usize>) -> Option<usize> {
        self.kind(way?)
    }

    /// The first stretch that asks the same.
    fn leader(&self, place: usize) -> usize {
        match self.leaders.get(place) {
            Some(leader) => *leader,
            None => place,
        }
    }

    /// Whether those that ask the same as a stretch are told apart.
    fn is_apart(&self, place: usize) -> bool {
        match self.apart.get(self.leader(place)) {
            Some(apart) => *apart,
            None => true,
        }
    }

    /// The run of a stretch that asks nothing: the one to which its ways lead, or its own.
    fn met(&self, place: usize, end: &End) -> Option<usize> {
        let mut met = None;
        let mut leads = false;
        for way in end.ways() {
            if way.is_some() {
                leads = true;
                match (met, self.kind_of(way)) {
                    (_, None) => {}
                    (None, kind) => met = kind,
                    (Some(one), Some(other)) => {
                        if one != other {
                            return Some(place);
                        }
                    }
                }
            }
        }
        if leads { met } else { Some(place) }
    }

    /// Gives each stretch that asks its run, and no other one.
    fn begin(&mut self) {
        for place in 0..self.kinds.len() {
            let end = self.ends.at(place);
            self.kinds[place] = if end.is_clear && !end.asks() {
                None
            } else if self.is_apart(place) {
                Some(place)
            } else {
                Some(self.leader(place))
            };
        }
    }

    /// Goes through the stretches that ask nothing once, from the last one on: whether something changed.
    fn sweep(&mut self) -> bool {
        let mut changed = false;
        let count = self.kinds.len();
        for steps in 0..count {
            let place = count - 1 - steps;
            let end = self.ends.at(place);
            if end.is_clear && !end.asks() {
                let met = self.met(place, &end);
                if met != self.kinds[place] {
                    self.kinds[place] = met;
                    changed = true;
                }
            }
        }
        changed
    }

    /// Goes through them until nothing changes: whether it came so far.
    fn settle(&mut self) -> bool {
        for _ in 0..SWEEPS {
            if !self.sweep() {
                return true;
            }
        }
        false
    }

    /// Gives stretches that ask nothing a run of their own: all, or those that have none.
    fn own(&mut self, all: bool) {
        for place in 0..self.kinds.len() {
            let end = self.ends.at(place);
            let asks_nothing = end.is_clear && !end.asks();
            if asks_nothing && (all || self.kinds[place].is_none()) {
                self.kinds[place] = Some(place);
            }
        }
    }

    /// Gives each stretch its run, by those that are told apart.
    fn flow(&mut self) {
        self.begin();
        let mut settles = self.settle();
        if settles {
            self.own(false);
            settles = self.settle();
        }
        if !settles {
            self.own(true);
        }
    }

    /// Tells those apart that ask the same and lead to different runs: whether there are some.
    fn tell_apart(&mut self) -> bool {
        let mut some = false;
        for place in 0..self.kinds.len() {
            let leader = self.leader(place);
            if leader == place || self.is_apart(place) {
                continue;
            }
            let (end, first) = (self.ends.at(place), self.ends.at(leader));
            if self.kind_of(end.taken) != self.kind_of(first.taken)
                || self.kind_of(end.next) != self.kind_of(first.next)
            {
                if let Some(apart) = self.apart.get_mut(leader) {
                    *apart = true;
                }
                some = true;
            }
        }
        some
    }

    /// Finds the run of each stretch.
    fn find(&mut self) {
        for _ in 0..ROUNDS {
            self.flow();
            if !self.tell_apart() {
                return;
            }
        }
        for apart in self.apart.iter_mut() {
            *apart = true;
        }
        self.flow();
    }

    /// The places of runs: of each stretch that has its own, among these.
    fn numbers(&self, alloc: Global) -> Result<Vec<u32>, AllocError> {
        let mut numbers = Vec::with_capacity(alloc, self.kinds.len())?;
        let mut count = 0u32;
        for place in 0..self.kinds.len() {
            numbers.push(count)?;
            if self.kind(place) == Some(place) {
                count = count.saturating_add(1);
            }
        }
        Ok(numbers)
    }

    /// The place of the run of a way.
    fn number(&self, numbers: &[u32], way: Option<usize>) -> Option<u32> {
        numbers.get(self.kind_of(way)?).copied()
    }

    /// The runs, in their order.
    fn runs(&self, alloc: Global, numbers: &[u32]) -> Result<Vec<Run>, AllocError> {
        let mut runs = Vec::new(alloc);
        for place in 0..self.kinds.len() {
            if self.kind(place) != Some(place) {
                continue;
            }
            let end = self.ends.at(place);
            runs.reserve_exact(1)?;
            runs.push(Run {
                point: self.ends.point(place),
                place: narrow(runs.len())?,
                is_clear: end.is_clear,
                ask: end.ask,
                badge: end.badge,
                taken: self.number(numbers, end.taken),
                next: self.number(numbers, end.next),
            })?;
        }
        Ok(runs)
    }
}

/// The runs of a program, by what is seen of its points. Memory may be refused.
pub(crate) fn draft_of(alloc: Global, base: u32, views: &PointViews) -> Result<Draft, AllocError> {
    let ends = Ends::of(alloc, base, views)?;
    let mut kinds = Kinds::new(alloc, &ends)?;
    kinds.find();
    let numbers = kinds.numbers(alloc)?;
    let mut places = Vec::with_capacity(alloc, views.len())?;
    for place in &ends.places {
        let number = kinds.number(numbers.as_slice(), Some(*place as usize));
        places.push(number.unwrap_or(u32::MAX))?;
    }
    Ok(Draft {
        runs: kinds.runs(alloc, numbers.as_slice())?,
        places,
    })
}
