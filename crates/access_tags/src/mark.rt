//! What is kept beside a location.

ghost use Rattle.std.specs.Prelude.{◌≡◌, ◌&&◌, nat_eq};
ghost use Rattle.access_tags.specs.Tag.{covers, marked, is_new};

/// What the running test did at a location: whether it has an exposed read of it, which no write of its own precedes, and
/// whether it wrote it.
#[derive(Clone, Copy, PartialEq, Eq)]
pub struct Mark {
    pub exposed: bool,
    pub written: bool,
}

/// What the tests that ended did at a location: its last writer, 0 for none, and the number of the latest of the readers
/// since, 0 for none.
#[derive(Clone, Copy)]
pub struct Past {
    pub writer: u32,
    pub readers: u32,
}

/// A test with an exposed read, and the number of the reader of the same location before it, 0 for none.
#[derive(Clone, Copy, PartialEq, Eq)]
pub struct Reader {
    pub test: u32,
    pub next: u32,
}

impl Past {
    pub const NONE: Past = Past {
        writer: 0,
        readers: 0,
    };

    /// Whether no test wrote there, and none read since.
    #[inline(always)]
    pub fn is_none(self) -> bool
        ensures { result ≡ (nat_eq self.writer 0 && nat_eq self.readers 0) }
    {
        self.writer == 0 && self.readers == 0
    }
}

impl Mark {
    pub const NONE: Mark = Mark {
        exposed: false,
        written: false,
    };

    /// The mark after one more touch.
    pub fn after(self, write: bool) -> Mark
        ensures { result ≡ marked write self }
    {
        if write {
            return Mark {
                exposed: self.exposed,
                written: true,
            };
        }
        Mark {
            exposed: self.exposed || !self.written,
            written: self.written,
        }
    }

    /// Whether one more touch leaves the mark as it is.
    #[inline(always)]
    pub fn covers(self, write: bool) -> bool
        ensures { result ≡ covers write self }
    {
        self.written || (self.exposed && !write)
    }

    pub const WRITTEN: Mark = Mark {
        exposed: false,
        written: true,
    };

    /// Whether there was no touch.
    pub fn is_new(self) -> bool
        ensures { result ≡ is_new self }
    {
        !self.exposed && !self.written
    }
}
