//! The faults of a line.

ghost use Rattle.std.specs.Prelude.{◌≡◌};

/// The reasons why a line has no task, in the order in which they are tested.
#[derive(Clone, Copy, Debug, PartialEq, Eq)]
pub enum LineFault {
    /// The line has more than 1,048,576 bytes.
    LineTooLong,
    /// The line has fewer than four spaces.
    MissingField,
    /// The first field is not a radix.
    BadRadix,
    /// The second field is not a format.
    BadSource,
    /// The third field is not a format.
    BadTarget,
    /// The fourth field is not a policy.
    BadPolicy,
}

impl LineFault {
    ghost use Rattle.fixed_respell.specs.Answer.{fault_message};

    /// Returns the message of the fault, as an answer reports it.
    pub fn words(self) -> &'static str
        ensures { result.now ≡ fault_message self }
    {
        match self {
            LineFault::LineTooLong => "line too long",
            LineFault::MissingField => "missing field",
            LineFault::BadRadix => "bad radix",
            LineFault::BadSource => "bad source format",
            LineFault::BadTarget => "bad target format",
            LineFault::BadPolicy => "bad policy",
        }
    }
}
