//! The language of scripts: a line's call, and the lines of a reply.
#![tactic(auto)]

mod domain;
mod fault;
mod laws;
mod printing;
mod reading;

pub use domain::kind_name;
pub use fault::Fault;
pub use laws::{
    cuts_are_read_as_related, examples_of_cuts, examples_of_lines, examples_of_printed_lines,
    examples_of_texts, lines_are_read_as_related, lines_ask_of_texts, lines_keep_their_calls,
    printed_calls_are_read, printed_examples, quoted_texts_are_read_back, terms_make_conditions,
};
pub use printing::calls::write_call;
pub use printing::replies::write_reply;
pub use printing::sinks::{write_all, write_number};
pub use reading::cuts::{Cuts, MOST_CUTS, parse_cuts};
pub use reading::parse::{MOST_LINE, parse_known};
pub use reading::parse_line;
pub use reading::term::Term;
pub use reading::token::Op;
