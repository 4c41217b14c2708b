//! Why a line is refused.

ghost use Rattle.std.specs.Prelude.{◌≡◌, ◌≤◌, List, ℕ, length};

use crate::fault::LineFault;
use fixed_numeral::ParseFixedError;
use line_engine::Output;
use run_engine::Cause;

/// A fault of a line in some language of lines.
pub trait Fault {
    /// The message of the fault.
    ghost text: { Self → List ℕ };

    /// Returns the message of the fault, as an answer reports it: at most 64 bytes.
    fn report(&self) -> &'static str
        ensures text { result.now ≡ text self.now }
        ensures short { length result.now ≤ 64 };
}

impl Fault for LineFault {
    ghost use Rattle.fixed_respell.specs.Answer.{fault_message};

    ghost text = { fault_message };

    fn report(&self) -> &'static str {
        self.words()
    }
}

/// Why a line is refused, in a language of lines with these faults.
#[derive(Clone, Copy)]
pub enum Refusal<F> {
    /// For a fault of the line.
    Line(F),
    /// For a fault of its numeral.
    Numeral(ParseFixedError),
}

impl<F: Fault> Refusal<F> {
    ghost use Rattle.fixed_respell.specs.Refusal.{refusal_message};

    /// Returns the message of the refusal, as an answer reports it: at most 64 bytes.
    pub fn words(&self) -> &'static str
        ensures text { result.now ≡ refusal_message F.text self.now }
        ensures short { length result.now ≤ 64 }
    {
        match self {
            Refusal::Line(fault) => fault.report(),
            Refusal::Numeral(error) => error.message(),
        }
    }
}

impl<F: Fault> Cause for Refusal<F> {
    ghost use Rattle.fixed_respell.specs.Refusal.{refusal_message};

    ghost message = { refusal_message F.text };

    fn push_message(&self, out: &mut Output) {
        out.push_bytes(self.words().as_bytes());
    }
}
