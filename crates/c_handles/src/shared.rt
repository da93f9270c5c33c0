//! A value that several handles may share.

use std::marker::Model;
use std::sync::Arc;

/// A value, which several handles may share.
#[derive(Drop)]
pub struct Shared<T> {
    pub(crate) value: Arc<T>,
}

impl<T> Model for Shared<T> {
    ghost use Rattle.std.specs.Arc.{arc_value};

    ghost Value = { T };

    ghost coded = { T.code };

    ghost view = { λ s. arc_value s.value };
}
