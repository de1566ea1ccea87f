//! What a node does with a release that it has.
ghost use Rattle.std.specs.Prelude.{◌≡◌};

/// The status of a release of the list.
#[derive(Clone, Copy, Debug, PartialEq, Eq)]
pub enum Status {
    /// The release is there to be installed.
    Unpacked,
    /// The release runs until the next boot.
    Current,
    /// The release was current or permanent.
    Old,
    /// A boot starts it, unless the list has a one-shot.
    Permanent,
    /// The release was installed by a script that ends with a restart: the next boot starts it, once.
    OneShot,
}

impl Status {
    ghost use Rattle.rel_list.specs.Status.{status_word, is_current, is_one_shot, is_permanent, is_temporary};
    ghost use Rattle.rel_list.specs.Event.{booted_status, installed_status, permanent_status, recorded_status, replaced_status, restarted_status};

    /// The atom for it.
    pub fn as_str(self) -> &'static str
        ensures { result.now ≡ status_word self }
    {
        match self {
            Status::Unpacked => "unpacked",
            Status::Current => "current",
            Status::Old => "old",
            Status::Permanent => "permanent",
            Status::OneShot => "one_shot",
        }
    }

    /// Whether it is the status of the release that runs, and won't be booted.
    pub fn is_current(self) -> bool
        ensures { result ≡ is_current self }
    {
        matches!(self, Status::Current)
    }

    /// Whether it is the status of the permanent release.
    pub fn is_permanent(self) -> bool
        ensures { result ≡ is_permanent self }
    {
        matches!(self, Status::Permanent)
    }

    /// Whether it is the status of the release that the next boot starts, once.
    pub fn is_one_shot(self) -> bool
        ensures { result ≡ is_one_shot self }
    {
        matches!(self, Status::OneShot)
    }

    // Whether it is the status of a release that is installed until a boot takes that away.
    pub(crate) fn is_temporary(self) -> bool
        ensures { result ≡ is_temporary self }
    {
        matches!(self, Status::Current | Status::OneShot)
    }

    // The status after an installation of another release.
    fn replaced(self) -> Status
        ensures { result ≡ replaced_status self }
    {
        match self {
            Status::Current | Status::OneShot => Status::Old,
            status => status,
        }
    }

    // The status after an installation, of the release itself or of another one.
    pub(crate) fn installed(self, itself: bool) -> Status
        ensures { result ≡ installed_status itself self }
    {
        match (itself, self) {
            (true, Status::Permanent) => Status::Permanent,
            (true, _) => Status::Current,
            (false, status) => status.replaced(),
        }
    }

    /// The status after an installation whose script ends with a restart, of the release itself or of another one.
    pub fn restarted(self, itself: bool) -> Status
        ensures { result ≡ restarted_status itself self }
    {
        match (itself, self) {
            (true, Status::Permanent) => Status::Permanent,
            (true, _) => Status::OneShot,
            (false, status) => status.replaced(),
        }
    }

    // The status after the event that makes the release itself or another one permanent.
    pub(crate) fn made_permanent(self, itself: bool) -> Status
        ensures { result ≡ permanent_status itself self }
    {
        match (itself, self) {
            (true, _) => Status::Permanent,
            (false, Status::Permanent) => Status::Old,
            (false, status) => status,
        }
    }

    /// The status after a boot.
    pub fn booted(self) -> Status
        ensures { result ≡ booted_status self }
    {
        match self {
            Status::Current => Status::Unpacked,
            Status::OneShot => Status::Current,
            status => status,
        }
    }

    /// The status that is written for it: an installation is written only where a restart has to follow it.
    pub fn recorded(self) -> Status
        ensures { result ≡ recorded_status self }
    {
        if self.is_current() {
            Status::Unpacked
        } else {
            self
        }
    }
}
