//! A step counter that exists only in contracts.

ghost use Rattle.std.specs.Prelude.{◌≡◌, ℕ, ◌+◌};
ghost use base.Fml.{ftrue};

use std::marker::Model;

// A number that exists only in contracts. It occupies no memory.
#[derive(Drop)]
struct Count {
    ghost number: { ℕ },
}

impl Model for Count {
    ghost also_owns = { λ _. ftrue };
}

impl Count {
    fn new() -> Count
        ensures { result.number ≡ 0 }
    {
        Count {}
    }

    fn next(&self) -> Count
        ensures { result.number ≡ self.now.number + 1 }
    {
        Count {}
    }
}

/// The number of steps that an algorithm has taken.
///
/// In contracts it is a natural number. It occupies no memory at run time, and code cannot read it.
#[derive(Drop)]
pub struct Steps {
    taken: Count,
}

impl Model for Steps {
    ghost use Rattle.std.specs.Prelude.{ℕ};

    ghost Value = { ℕ };

    ghost view = { λ s. s.taken.number };
}

impl Steps {
    /// Returns a counter at zero.
    pub fn new() -> Steps
        ensures { result ≡ 0 }
    {
        Steps {
            taken: Count::new(),
        }
    }

    /// Adds one step.
    pub fn tick(&mut self)
        ensures { self.new ≡ self.old + 1 }
    {
        self.taken = self.taken.next();
    }
}

const _: () = prove!(size_of::<Steps>() == 0);
