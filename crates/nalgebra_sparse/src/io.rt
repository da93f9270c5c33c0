//! Reading and writing sparse matrices in the Matrix Market exchange format.

pub use sparse_io::{
    Banner, ExportIter, MatrixMarketError, MatrixMarketErrorKind, MatrixMarketExport,
    MatrixMarketScalar, Out, Sink, each_text_means, load_coo_from_matrix_market_file,
    load_coo_from_matrix_market_str, one_document, one_meaning, round_trip, save_to_matrix_market,
    save_to_matrix_market_file, save_to_matrix_market_file_with, save_to_matrix_market_str,
    save_to_matrix_market_str_with, save_to_matrix_market_with, write_all_to,
};
pub use sparse_parser::error::Cause;
