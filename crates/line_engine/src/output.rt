//! The buffer for answers before they are written.

use text_buffer::TextBuffer;

/// The most bytes of answers that are gathered before they are written.
pub const OUTPUT_BUFFER: usize = 8192;

/// The answers that are not yet written. A rule appends to it, and clearing it costs nothing.
pub type Output = TextBuffer<OUTPUT_BUFFER>;
