//! Reading and writing sparse matrices in the Matrix Market exchange format.
#![tactic(auto)]

mod banner;
mod export;
mod files;
mod laws;
mod out;
mod reader;
mod sinks;
mod writer;

pub use banner::Banner;
pub use export::{ExportIter, MatrixMarketExport};
pub use files::{
    load_coo_from_matrix_market_file, save_to_matrix_market_file, save_to_matrix_market_file_with,
};
pub use laws::{each_text_means, one_document, one_meaning, round_trip};
pub use out::Out;
pub use reader::{count_entries, load_coo_from_matrix_market_str};
pub use sinks::{Sink, write_all_to};
pub use sparse_market_scalar::MatrixMarketScalar;
pub use sparse_parser::error::{MatrixMarketError, MatrixMarketErrorKind};
pub use writer::{
    save_to_matrix_market, save_to_matrix_market_str, save_to_matrix_market_str_with,
    save_to_matrix_market_with,
};
