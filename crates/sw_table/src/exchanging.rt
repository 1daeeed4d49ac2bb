//! Cells of an attribute, exchanged in place.

ghost use Rattle.std.specs.Prelude.{◌≡◌, ◌<◌, ◌*◌, length};
ghost use Rattle.sw_table.specs.Exchanged.{exchanged, AreExchanged};

/// The number that a code stands for, if it is one.
#[inline]
fn exchanged(codes: &[i64], cell: i64) -> i64
    ensures { result ≡ exchanged codes.now cell }
{
    if cell <= 0 {
        return cell;
    }
    match codes.get(cell as usize - 1) {
        Some(code) => *code,
        None => cell,
    }
}

/// Exchanges the cells of an attribute of so many rows of a flat list.
pub(crate) fn exchange_cells(
    cells: &mut [i64],
    width: usize,
    many: usize,
    attr: usize,
    codes: &[i64],
)
    requires within { attr < width }
    requires whole { length cells.old ≡ many * width }
    ensures rows { AreExchanged width many attr codes.now cells.old cells.new }
    ensures whole { length cells.new ≡ length cells.old }
{
    for place in 0..many {
        let at = place * width + attr;
        cells[at] = exchanged(codes, cells[at]);
    }
}
