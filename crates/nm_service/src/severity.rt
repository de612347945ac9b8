ghost use Rattle.std.specs.Prelude.{◌≡◌};
ghost use Rattle.nm_service.specs.Severities.{priority_of};

/// How bad it is what a line tells.
#[derive(Clone, Copy, PartialEq, Eq)]
pub enum Severity {
    /// Data may be lost, or are not served.
    Error,
    /// Something failed, and the others go on.
    Warning,
    /// Things take their course.
    Info,
}

impl Severity {
    /// What a line begins with that the system's journal reads.
    pub fn priority(self) -> &'static str
        ensures { result.now ≡ priority_of self }
    {
        match self {
            Severity::Error => "<3>",
            Severity::Warning => "<4>",
            Severity::Info => "<6>",
        }
    }
}
