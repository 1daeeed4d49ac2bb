//! History files: a record is written as a JSON text, read back from one, and checked.
#![tactic(auto)]

mod checking;
pub mod file_examples;
mod law;
mod reading;
mod writing;

pub use checking::check_file;
pub use checking::explaining::explain_file;
pub use law::{
    histories_are_read_as_related, legal_files_are_found_legal, records_are_read_back,
    tables_have_cells, texts_are_read_as_values,
};
pub use reading::read_record;
pub use writing::{write_out_record, write_record, write_record_ref};
