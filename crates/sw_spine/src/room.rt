//! Room in the lists that grow while others wait.

ghost use Rattle.std.specs.Prelude.{◌≡◌, ◌≤◌, ◌+◌, vec_capacity, vec_len, OnOk};

use std::alloc::AllocError;
use sw_rows::PackedRows;

/// A list with no more items is copied where it grows.
const FEW: usize = 1024;

/// How many bytes a longer list takes at once. So large a block the C library has from the system for itself, more than 32 MiB: no
/// page of it is taken before it is written to, and where it grows, its pages are moved and no item is copied.
const BLOCK: usize = 33 << 20;

/// Makes room for so many more items, which stay; each is of so many bytes. Where a list grows past a few items it gets a large
/// block, if there is memory for one.
pub(crate) fn make_room<T>(list: &mut Vec<T>, more: usize, size: usize) -> Result<(), AllocError>
    ensures items { list.new.items ≡ list.old.items }
    ensures len { vec_len list.new ≡ vec_len list.old }
    ensures ok { OnOk result (vec_len list.new + more ≤ vec_capacity list.new) }
{
    let many = BLOCK / size.max(1);
    let is_long = list.len() >= FEW || more >= FEW;
    if is_long && list.capacity() - list.len() < more && list.capacity() < many {
        let _block = list.reserve_exact(many.max(more));
    }
    list.reserve(more)
}

/// Makes room for all rows that may come to a list, once there are more than a few, if there is memory for it.
pub(crate) fn make_room_for_all(rows: &mut PackedRows, more: u64)
    ensures { rows.new ≡ rows.old }
{
    if rows.len() == FEW {
        let _room = rows.reserve(more as usize);
    }
}
