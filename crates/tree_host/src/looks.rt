// The last looks, so that nothing is asked twice.
use crate::found::Found;

/// What the last two looks told, each with the path that was looked at.
#[derive(Drop)]
pub(crate) struct Looks {
    last: Option<Look>,
    before: Option<Look>,
}

#[derive(Drop)]
struct Look {
    path: String,
    found: Found,
}

impl Looks {
    pub(crate) fn new() -> Looks {
        Looks {
            last: None,
            before: None,
        }
    }

    pub(crate) fn get(&self, path: &str) -> Option<Found> {
        found_at(&self.last, path).or(found_at(&self.before, path))
    }

    pub(crate) fn keep(&mut self, path: String, found: Found) {
        self.before = self.last.take();
        self.last = Some(Look { path, found });
    }

    /// Before something changes.
    pub(crate) fn clear(&mut self) {
        self.last = None;
        self.before = None;
    }
}

fn found_at(look: &Option<Look>, path: &str) -> Option<Found> {
    match look {
        Some(look) if look.path.as_str() == path => Some(look.found),
        _ => None,
    }
}
