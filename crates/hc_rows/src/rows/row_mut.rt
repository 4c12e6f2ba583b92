ghost use Rattle.std.specs.Prelude.{◌≡◌, ◌+◌, slice_index_or};
ghost use Rattle.std.specs.Borrow.{sem};
ghost use Rattle.hc_rows.specs.Rows.{row_at};

use super::{Rows, start_of};

/// Where a row ends; the number of all items past the last row.
fn end_of(starts: &[usize], r: usize, many: usize) -> usize
    ensures { result ≡ slice_index_or starts.now (r + 1) many }
{
    if r < starts.len() {
        start_of(starts, r + 1, many)
    } else {
        many
    }
}

impl<T> Rows<T> {
    ghost use Rattle.hc_rows.specs.Lends.{lends_row};

    /// A row for changes, empty past the last one.
    pub fn row_mut(&mut self, r: usize) -> &mut [T]
        ensures* writes_back { sem 𝓛 (lends_row T.row self.entry r result) }
        ensures value { result.now ≡ row_at self.old r }
    {
        let many = self.items.as_slice().len();
        let start = start_of(self.starts.as_slice(), r, many);
        let end = end_of(self.starts.as_slice(), r, many);
        self.items.slice_mut(start..end)
    }
}
