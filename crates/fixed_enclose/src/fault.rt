//! The faults of a line.

ghost use Rattle.std.specs.Prelude.{◌≡◌};

use fixed_respell::Fault;

/// Why a line requests no enclosure, in the order in which the faults are checked.
#[derive(Clone, Copy, Debug, PartialEq, Eq)]
pub enum EncloseFault {
    /// It has more than 1,048,576 bytes.
    LineTooLong,
    /// It has fewer than two spaces.
    MissingField,
    /// Its first word is not a radix.
    BadRadix,
    /// Its second word is not a format.
    BadFormat,
}

impl EncloseFault {
    ghost use Rattle.fixed_enclose.specs.Answer.{fault_message};

    /// The message of the fault, as in an answer.
    pub fn words(self) -> &'static str
        ensures { result.now ≡ fault_message self }
    {
        match self {
            EncloseFault::LineTooLong => "line too long",
            EncloseFault::MissingField => "missing field",
            EncloseFault::BadRadix => "bad radix",
            EncloseFault::BadFormat => "bad format",
        }
    }
}

impl Fault for EncloseFault {
    ghost use Rattle.fixed_enclose.specs.Answer.{fault_message};

    ghost text = { fault_message };

    fn report(&self) -> &'static str {
        self.words()
    }
}
