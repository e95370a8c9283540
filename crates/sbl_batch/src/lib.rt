//! The verbs over streams of words: `filter` writes the row of each word, `check` compares stems with expected ones, `compare` two scripts.
#![tactic(auto)]

mod bench_pair;
mod checking;
mod comparing;
mod comparison_rows;
mod filtering;
pub mod laws;
mod lines;
mod row_writer;
mod to_end;
mod word_fault;

pub use bench_pair::{BenchPair, CompareFault, CompareInput, open_pair};
pub use checking::{CheckedLists, check, check_observed};
pub use comparing::{ScriptComparison, compare, compare_status, write_comparison};
pub use comparison_rows::comparison_text;
pub use filtering::filter;
pub use to_end::filter_to_end;
pub use word_fault::WordFault;
