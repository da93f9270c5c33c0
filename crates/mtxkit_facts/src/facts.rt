//! The facts that `mtxkit info` states about a text.

ghost use Rattle.std.specs.Prelude.{◌≡◌, IfErr, IfOk};
ghost use Rattle.mtxkit_texts.specs.AnyField.{IsUnsupported, MeansOnesText};
ghost use Rattle.mtxkit_facts.specs.Facts.{AreTextFacts, IsInfoFailure};
ghost use Rattle.mtxkit_texts.specs.Loaded.{IsWholeFailure, MeansWhole};

use mtxkit_matrices::{Info, info_of};
use mtxkit_texts::{Failure, Loaded, header_of, load_exact, load_ones};
use sparse_parser::header::Header;
use std::alloc::{AllocError, Global};

/// How facts are written.
#[derive(Clone, Copy, Debug)]
pub enum ReportFormat {
    /// A line for each fact.
    Lines,
    /// An object in JSON, on one line.
    Json,
}

/// Facts about a text.
#[derive(Drop)]
pub struct TextFacts {
    /// The header.
    pub header: Option<Header>,
    /// The number of rows.
    pub rows: usize,
    /// The number of columns.
    pub cols: usize,
    /// The number of triplets that the text means, including those that a symmetry implies.
    pub entries: usize,
    /// Whether the values are integers, or those of a pattern. Otherwise they are real or complex, and no fact about
    /// values is one of the text.
    pub has_values: bool,
    /// The facts about the matrix. If the values are real or complex, it has the value 1 in place of each of them.
    pub matrix: Info,
}

/// Returns the facts about a text.
///
/// # Errors
///
/// Returns the errors of [`load_exact`] except `NotSupported`: if the values are real or complex,
/// returns those of [`load_places`](mtxkit_texts::load_places).
pub fn facts_of(alloc: Global, text: &str) -> Result<TextFacts, Failure>
    ensures are { IfOk result (AreTextFacts text.now) }
    ensures refused { IfErr result (IsInfoFailure text.now) }
{
    match load_exact(alloc, 1, text) {
        Ok(loaded) => Ok(exact_facts(alloc, text, &loaded)?),
        Err(failure) => other_facts(alloc, text, failure),
    }
}

// Returns the facts about a text whose matrix was not loaded for this reason.
fn other_facts(alloc: Global, text: &str, failure: Failure) -> Result<TextFacts, Failure>
    requires { IsWholeFailure 1 text.now failure }
    ensures are { IfOk result (AreTextFacts text.now) }
    ensures refused { IfErr result (IsInfoFailure text.now) }
{
    match failure {
        Failure::NotSupported(_) => place_facts(alloc, text),
        failure => Err(failure),
    }
}

// Returns the facts about a text with real or complex values.
fn place_facts(alloc: Global, text: &str) -> Result<TextFacts, Failure>
    requires { IsUnsupported text.now }
    ensures are { IfOk result (AreTextFacts text.now) }
    ensures refused { IfErr result (IsInfoFailure text.now) }
{
    let loaded = load_ones(alloc, 1, text)?;
    Ok(ones_facts(alloc, text, &loaded)?)
}

// Returns the facts about a text, given its matrix with exact sums.
fn exact_facts(alloc: Global, text: &str, loaded: &Loaded) -> Result<TextFacts, AllocError>
    requires { MeansWhole text.now loaded.now.entries loaded.now.matrix }
    ensures { IfOk result (AreTextFacts text.now) }
{
    let matrix = info_of(alloc, &loaded.matrix)?;
    Ok(TextFacts {
        header: header_of(text),
        rows: loaded.matrix.nrows(),
        cols: loaded.matrix.ncols(),
        entries: loaded.entries,
        has_values: true,
        matrix,
    })
}

// Returns the facts about a text with real or complex values, given the matrix with ones in their place.
fn ones_facts(alloc: Global, text: &str, loaded: &Loaded) -> Result<TextFacts, AllocError>
    requires { MeansOnesText text.now loaded.now.entries loaded.now.matrix }
    ensures { IfOk result (AreTextFacts text.now) }
{
    let matrix = info_of(alloc, &loaded.matrix)?;
    Ok(TextFacts {
        header: header_of(text),
        rows: loaded.matrix.nrows(),
        cols: loaded.matrix.ncols(),
        entries: loaded.entries,
        has_values: false,
        matrix,
    })
}
