//! Rows of which some are gone, by their places, and what is left of them.

ghost use Rattle.std.specs.Prelude.{◌≡◌, ◌++◌, length, map, OnOk, OnErr};
ghost use Rattle.sw_table.specs.Kept.{kept};
ghost use Rattle.sw_table.specs.Packed.{HasRoomFor};
ghost use Rattle.sw_table.specs.Rows.{cell_of};
ghost use Rattle.sw_load.specs.Appended.{Fit, IsAppended, cell_or_key};
ghost use Rattle.sw_load.specs.Gone.{ArePlaces, left_of};
ghost use Rattle.sw_load.specs.Left.{AreGoneIn, left_in};

use crate::columns::Columns;
use crate::flags::flags_without;
use crate::gone::gone_after;
use crate::part::Part;
use crate::two_lists::TwoLists;
use std::alloc::{AllocError, Global};
use sw_table::PackedRows;

/// Adds the columns of the rows that are left at the ends of two lists, which have room for them.
pub(crate) fn append_left(
    all: &TwoLists,
    gone: &[usize],
    columns: Columns,
    heads: &mut Vec<i64>,
    tails: &mut Vec<i64>,
)
    requires places { ArePlaces 0 (length all.now.items) gone.now }
    requires fit { Fit columns.tail (left_of all.now.items gone.now) }
    requires heads { HasRoomFor (length (left_of all.now.items gone.now)) heads.old }
    requires tails { HasRoomFor (length (left_of all.now.items gone.now)) tails.old }
    ensures heads { IsAppended (map (cell_of columns.head) (left_of all.now.items gone.now)) heads.old heads.new }
    ensures tails { IsAppended (map (cell_or_key columns.tail) (left_of all.now.items gone.now)) tails.old tails.new }
{
    let many = all.len();
    let mut from = 0;
    for place in gone {
        let part = Part {
            start: from,
            many: *place - from,
        };
        all.append_part(part, columns, heads, tails);
        from = *place + 1;
    }
    let rest = Part {
        start: from,
        many: many - from,
    };
    all.append_part(rest, columns, heads, tails);
}

/// Moves the rows that are left into one list, so that none are gone. After an error nothing has changed.
pub(crate) fn compact(all: &mut TwoLists, gone: &mut Vec<usize>) -> Result<(), AllocError>
    requires { AreGoneIn all.old gone.old }
    ensures places { AreGoneIn all.new gone.new }
    ensures items { left_in all.new gone.new ≡ left_in all.old gone.old }
{
    let alloc = *gone.allocator();
    let live = flags_without(alloc, all.len(), gone)?;
    all.compact(alloc, &live)?;
    gone.clear();
    Ok(())
}

/// Appends later rows to those that are left, and then those are gone whose flags are false. After an error the rows
/// that are left are as they were.
pub(crate) fn keep(
    all: &mut TwoLists,
    gone: &mut Vec<usize>,
    later: &PackedRows,
    live: &[bool],
) -> Result<(), AllocError>
    requires places { AreGoneIn all.old gone.old }
    requires flags { length live.now ≡ length (left_in all.old gone.old ++ later.now.items) }
    ensures places { AreGoneIn all.new gone.new }
    ensures ok { OnOk result (left_in all.new gone.new ≡ kept live.now (left_in all.old gone.old ++ later.now.items)) }
    ensures err { OnErr result (left_in all.new gone.new ≡ left_in all.old gone.old) }
{
    let before = all.len();
    all.extend(later)?;
    let _many = all.len();
    match gone_after(*gone.allocator(), gone, live) {
        Ok(now) => {
            *gone = now;
            Ok(())
        }
        Err(e) => {
            all.truncate(before);
            Err(e)
        }
    }
}
