//! The first word of a Matrix Market text.

ghost use Rattle.std.specs.Prelude.{◌≡◌};
ghost use Rattle.sparse_io.specs.Banners.{banner_word};

/// The first word of a written text.
///
/// This library reads it without regard to case. Other readers compare it with [`MixedCase`](Banner::MixedCase):
/// `scipy.io.mmread` of SciPy 1.10, for example, accepts no other form.
#[derive(Clone, Copy, Debug, PartialEq, Eq)]
pub enum Banner {
    /// `%%matrixmarket`, as the Rust crate writes it.
    LowerCase,
    /// `%%MatrixMarket`, as the definition of the format has it.
    MixedCase,
}

impl Banner {
    /// Returns the word.
    pub fn word(self) -> &'static str
        ensures { result.now ≡ banner_word self }
    {
        match self {
            Banner::LowerCase => "%%matrixmarket",
            Banner::MixedCase => "%%MatrixMarket",
        }
    }
}
