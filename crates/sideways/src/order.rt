//! What the words of `order` ask for.

use clap::ArgMatches;
use sw_logs::By;
use sw_program::{Limit, Ordering, Way};

/// Which calls have to stand before which.
fn by_of(given: &ArgMatches<'_>) -> Option<By> {
    match given.get_str("by")? {
        "sessions" => Some(By::Sessions),
        _ => Some(By::Times {
            slack: given.get_one::<u64>("slack")?,
        }),
    }
}

fn way_of(given: &ArgMatches<'_>) -> Option<Way> {
    Some(Way {
        by: by_of(given)?,
        any_keys: given.get_str("keys")? == "any",
        states: given.get_one::<u64>("states")?,
        limit: Limit::new(given.get_one::<u64>("limit")?)?,
    })
}

/// What the words of `order` ask for.
pub(crate) fn ordering_of<'g, 'a: 'g>(
    given: &'g ArgMatches<'a>,
    is_terminal: bool,
) -> Option<Ordering<'g>> {
    Some(Ordering {
        table: given.get_str("table")?,
        logs: given.get_strs("logs")?,
        way: way_of(given)?,
        origins: given.get_str("where"),
        progress: is_terminal && !given.get_flag("quiet"),
    })
}
