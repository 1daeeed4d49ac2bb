//! Queries on rows, replies and refusals, and the plain scan that answers a query.
//!
//! What the layers of maps, areas and heads speak of, who know of no table's header, texts or bytes.
#![tactic(auto)]

mod bound;
mod name;
mod query;
mod refusal;
mod reply;
mod scanning;

pub use bound::{Bound, greater, is_within, lesser};
pub use name::Name;
pub use query::{Call, Cond, Conds, Names, Query, Want};
pub use refusal::{Refusal, Why};
pub use reply::{Cells, Reply, ReplyRow, ReplyRows, RowsLeft};
pub use scanning::places::Places;
pub use scanning::{answer, matching_keys, scan};
pub use sw_table::{LiveTable, PackedRows, Row, Update, has_key, update, update_all};
