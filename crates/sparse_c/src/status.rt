//! The status of a call with handles.

// Returns the status of a result: 0 for `Ok`, and otherwise the number of the error. It is a macro, since a proof sees
// the arms of its match, but of a function only the contract.
macro_rules! status {
    ($result:expr) => {
        match $result {
            Ok(()) => 0,
            Err(refusal) => refusal.status(),
        }
    };
}

pub(crate) use status;
