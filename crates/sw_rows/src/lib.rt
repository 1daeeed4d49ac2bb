//! Tables: their schema, cells and texts, the reading of one, and where bytes come from and go to.
//!
//! It hands on what every other crate speaks of: rows and updates of `sw_table`; bounds, queries, calls, replies,
//! refusals and the plain scan of `sw_query`.
#![tactic(auto)]

mod kind;
mod laws;
mod limits;
mod loading;
mod schema;
mod source;
mod table;

pub use kind::Kind;
pub use laws::{examples, spelling, text_answers};
pub use limits::{MOST_NAME, MOST_NUMBER};
pub use loading::{MOST_BYTES, load, load_bytes, load_in_parts, read_all};
pub use schema::text_key::TextKey;
pub use schema::texts::{MOST_BYTES_OF_TEXT, MOST_TEXTS, Texts, read_text};
pub use schema::{Schema, is_name};
pub use source::{Counted, Sink, Source};
pub use sw_query::{
    Bound, Call, Cells, Cond, Conds, Name, Names, Places, Query, Refusal, Reply, ReplyRow,
    ReplyRows, RowsLeft, Want, Why, answer, greater, is_within, lesser, matching_keys, scan,
};
pub use sw_table::{LiveTable, PackedRows, Row, Update, has_key, update, update_all};
pub use table::MOST_ROWS;
pub use table::cell::{read_cell, read_cell_bytes, read_digits};
