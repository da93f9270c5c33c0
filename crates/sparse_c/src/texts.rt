//! Matrix Market texts, read into arrays and written from them, and their faults.

pub(crate) mod faults;
pub(crate) mod reading;
pub(crate) mod writing;
