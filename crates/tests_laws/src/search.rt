//! All lists over an alphabet up to a length, without those that do nothing at some place.
/// What was seen of the lists.
#[derive(Clone, Copy, Debug, PartialEq)]
pub(crate) struct Seen {
    /// How many lists were run.
    pub runs: u32,
    /// Of how many the law doesn't hold.
    pub broken: u32,
    /// Of how many the turned law doesn't hold.
    pub turned: u32,
    /// Whether no list is left.
    pub whole: bool,
}

impl Seen {
    pub(crate) fn new() -> Seen {
        Seen {
            runs: 0,
            broken: 0,
            turned: 0,
            whole: false,
        }
    }

    /// One run more, with whether the law holds of it, and whether the turned one does.
    pub(crate) fn count(&mut self, (law, turned): (bool, bool)) {
        self.runs = self.runs.wrapping_add(1);
        if !law {
            self.broken = self.broken.wrapping_add(1);
        }
        if !turned {
            self.turned = self.turned.wrapping_add(1);
        }
    }
}

/// The search of all its lists found none of which the law doesn't hold, and so many of which the turned one doesn't.
pub(crate) fn found(runs: u32, turned: u32) -> Seen {
    Seen {
        runs,
        broken: 0,
        turned,
        whole: true,
    }
}

/// The most lists of one search.
pub(crate) const MOST: u32 = 10_000_000;

/// Where the search goes on behind a list that was run, or behind one that has no letter more: the list loses its last
/// letter where it is to be replaced, and the letter behind it is answered. None where no list is left.
pub(crate) fn go_on(list: &mut Vec<usize>, ran: bool, longest: usize) -> Option<usize> {
    if ran && list.len() < longest {
        return Some(0);
    }
    match list.pop() {
        Some(last) => Some(last.wrapping_add(1)),
        None => None,
    }
}
