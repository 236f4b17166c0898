//! Whether a world is kept from what was done.

use crate::lanes::Item;
use crate::pictures::{Picture, Shown};
use crate::services::{Entry, Reach};
use object_ids::{ObjectId, lane};

/// What was done until the disk stopped: the requests, the items of the two lanes, and the worlds behind so many requests
/// that were answered one after another.
#[derive(Drop)]
pub(crate) struct Past {
    pub(crate) entries: Vec<Entry>,
    pub(crate) pictures: Vec<Picture>,
    pub(crate) first: Vec<Item>,
    pub(crate) second: Vec<Item>,
    pub(crate) own: Reach,
    pub(crate) pending: Option<Reach>,
}

/// Whether so many first items of a lane may be what is kept of it: none of them belongs to a place of `p` or above, and
/// every item that belongs to a place below `c` is one of them.
fn may_end(items: &[Item], many: usize, reach: Reach) -> bool {
    for (at, item) in items.iter().enumerate() {
        if let Item::Turn { place, .. } = item {
            if at < many && *place >= reach.p || at >= many && *place < reach.c {
                return false;
            }
        }
    }
    true
}

/// Whether the cut that was drawn at `c` places is among them.
fn has_cut(items: &[Item], reach: Reach) -> bool {
    if reach.c == 0 {
        return true;
    }
    for item in items {
        if let Item::Cut { places } = item {
            if *places == reach.c {
                return true;
            }
        }
    }
    false
}

/// At how many places one world stands as a lane does behind some items, and the id that isn't made there yet.
fn place_behind(items: &[Item]) -> (usize, Option<ObjectId>) {
    let mut found = (0, None);
    for item in items {
        if let Item::Turn { place, unmade } = item {
            found = (place.saturating_add(1), *unmade);
        }
    }
    found
}

/// The objects that count: those of a lane and of the domains that stand.
#[derive(Clone, Copy)]
struct Part<'a> {
    number: u32,
    domains: &'a [u64],
    unmade: Option<ObjectId>,
}

impl<'a> Part<'a> {
    fn has(&self, shown: &Shown) -> bool {
        lane(&shown.id, 2) == self.number
            && self.domains.contains(&shown.id.domain)
            && self.unmade != Some(shown.id)
    }

    fn count(&self, picture: &Picture) -> u64 {
        let mut count = 0u64;
        for shown in &picture.objects {
            if self.has(shown) {
                count = count.saturating_add(1);
            }
        }
        count
    }

    /// Whether all that counts of one world stands in another.
    fn is_in(&self, one: &Picture, other: &Picture) -> bool {
        for shown in &one.objects {
            if self.has(shown) && !has_object(other, shown) {
                return false;
            }
        }
        true
    }
}

fn has_object(picture: &Picture, wanted: &Shown) -> bool {
    for shown in &picture.objects {
        if shown.id == wanted.id {
            return shown.text.as_str() == wanted.text.as_str();
        }
    }
    false
}

impl Past {
    /// Whether the found objects of a lane are those behind so many first items.
    fn is_behind(&self, number: u32, items: &[Item], domains: &[u64], found: &Picture) -> bool {
        let (places, unmade) = place_behind(items);
        let Some(stood) = self.pictures.as_slice().get(places) else {
            return false;
        };
        let all = Part {
            number,
            domains,
            unmade: None,
        };
        let part = Part { unmade, ..all };
        part.is_in(stood, found) && part.count(stood) == all.count(found)
    }

    fn is_lane_kept(
        &self,
        number: u32,
        items: &[Item],
        domains: &[u64],
        reach: Reach,
        found: &Picture,
    ) -> bool {
        for many in 0..=items.len() {
            let Some((front, _)) = items.split_at_checked(many) else {
                return false;
            };
            if may_end(items, many, reach)
                && has_cut(front, reach)
                && self.is_behind(number, front, domains, found)
            {
                return true;
            }
        }
        false
    }

    /// Whether a world is kept with these numbers.
    fn is_kept_with(&self, reach: Reach, found: &Picture) -> bool {
        let Some(at) = self.pictures.as_slice().get(reach.p) else {
            return false;
        };
        let domains = at.numbers.as_slice();
        reach.c <= reach.p
            && at.catalogue.as_str() == found.catalogue.as_str()
            && self.is_lane_kept(0, self.first.as_slice(), domains, reach, found)
            && self.is_lane_kept(1, self.second.as_slice(), domains, reach, found)
    }

    /// Whether a world is kept with the desk's own numbers, or with those of what is pending.
    pub(crate) fn is_kept(&self, found: &Picture) -> bool {
        if self.is_kept_with(self.own, found) {
            return true;
        }
        match self.pending {
            Some(reach) => self.is_kept_with(reach, found),
            None => false,
        }
    }
}
