//! What a call answers, and the number that C sees.
ghost use Rattle.std.specs.Prelude.{◌≡◌};
ghost use Rattle.jschema_c.specs.Status.{code};

/// What a call answers.
#[derive(Debug, Clone, Copy, PartialEq, Eq)]
pub enum Status {
    /// Done. Of a check: the instance is valid.
    Done,
    /// The instance is invalid.
    Invalid,
    /// The handle isn't ready for the call, or an argument has no meaning.
    Misused,
    /// An input is refused. The text is the line that says why.
    Refused,
    /// Out of memory.
    Failed,
}

impl Status {
    /// The number that C sees.
    pub(crate) fn code(self) -> u32
        ensures { result ≡ code self }
    {
        match self {
            Status::Done => 0,
            Status::Invalid => 1,
            Status::Misused => 2,
            Status::Refused => 3,
            Status::Failed => 4,
        }
    }
}
