//! The first line with a fault of a text that was refused.

ghost use Rattle.sparse_faults.specs.FirstFaults.{HasError, IsFirstFault};
ghost use Rattle.sparse_faults.specs.ValueTypes.{scalar_as};

use sparse_faults::{Location, ValueType, text_fault};

/// Returns the first line with a fault of a text that has an error, with values that are read as this type.
pub(crate) fn location_of(text: &str, values: ValueType) -> Location
    requires { HasError (scalar_as values) text.now }
    ensures { IsFirstFault (scalar_as values) text.now result.line }
{
    match text_fault(text, values) {
        Some(location) => location,
        None => unreachable!(),
    }
}
