//! For tests that hold whichever single allocation fails.

/// What the call returns, or if an allocation fails, what the same call then returns.
macro_rules! again {
    ($refused:pat, $call:expr) => {
        match $call {
            Err($refused) => $call,
            answer => answer,
        }
    };
}

pub(crate) use again;
