//! What the arguments of commands choose among.

ghost use Rattle.std.specs.Prelude.{◌≡◌, is_some};
ghost use Rattle.std.specs.Option.{option_map};
ghost use Rattle.mtxkit_arguments.specs.Files.{first_of_fill, second_of_fill};
ghost use Rattle.mtxkit_arguments.specs.Files.{is_file, target_file};

use mtxkit_patterns::Method;

/// The order in which the rows and columns of a matrix are taken.
#[derive(Clone, Copy, Debug)]
pub enum FillOrder<'a> {
    /// That of the matrix.
    Natural,
    /// One that is computed.
    Computed(Method),
    /// That of the file with this path.
    File(&'a str),
}

impl<'a> FillOrder<'a> {
    /// Returns the path of the first file that is read for the fill of this file.
    pub(crate) fn first(self, file: &'a str) -> &'a str
        ensures { result.now ≡ first_of_fill self.entry file.now }
    {
        match self {
            FillOrder::Natural | FillOrder::Computed(_) => file,
            FillOrder::File(path) => path,
        }
    }

    /// Returns the path of the second file that is read for the fill of this file, if there is one.
    pub(crate) fn second(self, file: &'a str) -> Option<&'a str>
        ensures { option_map (λ path. path.now) result ≡ second_of_fill self.entry file.now }
    {
        match self {
            FillOrder::Natural | FillOrder::Computed(_) => None,
            FillOrder::File(_) => Some(file),
        }
    }
}

/// The format of a picture, and where it is written to.
#[derive(Clone, Copy, Debug)]
pub enum Target<'a> {
    /// A portable bitmap, on the output.
    Bitmap,
    /// Lines of block characters, on the output.
    Blocks,
    /// Scalable vector graphics (SVG), on the output.
    Svg,
    /// A portable bitmap, in the file with this path.
    File(&'a str),
}

impl<'a> Target<'a> {
    /// Returns the path of the output file, if there is one.
    pub(crate) fn path(self) -> Option<&'a str>
        ensures saved { is_some result ≡ is_file self.entry }
        ensures path { option_map (λ path. path.now) result ≡ target_file self.entry }
    {
        match self {
            Target::Bitmap | Target::Blocks | Target::Svg => None,
            Target::File(path) => Some(path),
        }
    }
}

/// Whether a matrix is written with its values.
#[derive(Clone, Copy, Debug)]
pub enum Values {
    /// With integers; the values of a pattern are 1.
    Integers,
    /// Without values, as a pattern.
    Pattern,
}
