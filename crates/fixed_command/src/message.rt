//! Why a line is refused, as the message that reports it.

use line_engine::Output;
use run_engine::Cause;

/// Why a line is refused: the message that reports it.
#[derive(Clone, Copy)]
pub struct Message {
    /// The message.
    pub text: &'static str,
}

impl Cause for Message {
    ghost message = { λ m. m.text.now };

    fn push_message(&self, out: &mut Output) {
        out.push_bytes(self.text.as_bytes());
    }
}
