//! The error of calls that allocate and cannot fail otherwise.

use std::alloc::AllocError;
use thiserror::Error;

/// There was no memory for the result of a call. Nothing was returned.
#[derive(Clone, Copy, Debug, Error, PartialEq, Eq)]
#[error("no memory")]
pub struct NoMemory;

impl From<AllocError> for NoMemory {
    fn from(_error: AllocError) -> NoMemory {
        NoMemory
    }
}

#[cfg(test)]
mod tests {
    use super::*;
    use std::test::Fail;

    #[test]
    fn want_of_memory_shows_its_words(rt: HostRuntime) -> Result<(), Fail> {
        let shown = format!(in rt.alloc(); "{NoMemory}")?;
        assert!(rt; shown.as_str() == "no memory");
        assert_eq!(rt; NoMemory::from(AllocError), NoMemory);
        Ok(())
    }
}
