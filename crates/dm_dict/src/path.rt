//! The groups round an AVP (RFC 6733, 4.4).
ghost use Rattle.std.specs.Prelude.{◌≤◌};

/// A group round an AVP.
#[derive(Clone, Copy, Debug)]
pub struct Step {
    /// Which of its AVP Code and Vendor-ID it is in its list, from 1 on.
    pub nth: usize,
    /// Its AVP Code.
    pub code: u32,
    /// Its Vendor-ID, where it has one.
    pub vendor: Option<u32>,
}

/// The groups round an AVP, the outermost first.
#[derive(Clone, Copy, Debug)]
pub struct Path {
    pub(crate) steps: [Step; 8],
    pub(crate) size: usize,
    pub ghost fits: { size ≤ 8 },
}

impl Path {
    ghost use Rattle.std.specs.Prelude.{◌≡◌, ◌<◌, ◌+◌, ◌++◌, ◌∷◌, []};
    ghost use Rattle.dm_dict.specs.Locating.{path_of};

    /// No groups.
    pub(crate) fn top() -> Path
        ensures none { path_of result ≡ [] }
        ensures size { result.size ≡ 0 }
    {
        let none = Step {
            nth: 0,
            code: 0,
            vendor: None,
        };
        Path {
            steps: [none; 8],
            size: 0,
        }
    }

    /// The path inside the group.
    pub(crate) fn inside(&self, step: Step) -> Path
        requires room { self.now.size < 8 }
        ensures inside { path_of result ≡ path_of self.now ++ step ∷ [] }
        ensures size { result.size ≡ self.now.size + 1 }
    {
        let mut steps = self.steps;
        steps[self.size] = step;
        Path {
            steps,
            size: self.size + 1,
        }
    }

    /// The groups, the outermost first.
    pub fn as_slice(&self) -> &[Step]
        ensures { result.now ≡ path_of self.now }
    {
        &self.steps[..self.size]
    }
}
