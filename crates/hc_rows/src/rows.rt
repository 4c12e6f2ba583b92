ghost use Rattle.std.specs.Prelude.{◌≡◌, ℕ, ◌+◌, ◌<◌, ◌≤◌, List, [], ◌∷◌, ◌++◌, length, map, replicate, slice_get, slice_index_or, slice_range, slice_set, IfOk, OnOk, OnErr, Some};
ghost use Rattle.hc_rows.specs.Rows.{AreStarts, flat, number_of, row_at, with_item};

mod row_mut;

use hc_fault::NoMemory;
use std::alloc::Global;
use std::marker::Model;

/// A list cut into rows, seen by contracts as the list of its rows.
#[derive(Debug, Drop)]
pub struct Rows<T> {
    items: Vec<T>,
    starts: Vec<usize>,
}

impl<T> Model for Rows<T> {
    ghost use Rattle.std.specs.Prelude.{List, length};
    ghost use Rattle.std.specs.Coded.{coded_list};
    ghost use Rattle.hc_rows.specs.Rows.{AreStarts, rows_of};

    ghost Value = { List (List T) };

    ghost coded = { coded_list (coded_list T.code) };

    ghost view = { λ rows. rows_of rows.items.items rows.starts.items (length rows.items.items) };

    ghost invariant = { λ rows. AreStarts rows.starts.items (length rows.items.items) };
}

/// Where a row begins; the number of all items past the last row.
fn start_of(starts: &[usize], r: usize, many: usize) -> usize
    ensures { result ≡ slice_index_or starts.now r many }
{
    match starts.get(r) {
        None => many,
        Some(start) => *start,
    }
}

/// The items from one place up to another.
fn range<T>(items: &[T], start: usize, end: usize) -> &[T]
    requires order { start ≤ end }
    requires within { end ≤ length items.now }
    ensures { result.now ≡ slice_range items.now start end }
{
    &items[start..end]
}

/// A row, empty past the last one.
fn cut<'a, T>(items: &'a [T], starts: &[usize], r: usize) -> &'a [T]
    requires { AreStarts starts.now (length items.now) }
    ensures { result.now ≡ slice_range items.now (slice_index_or starts.now r (length items.now)) (slice_index_or starts.now (r + 1) (length items.now)) }
{
    let many = items.len();
    if r < starts.len() {
        range(
            items,
            start_of(starts, r, many),
            start_of(starts, r + 1, many),
        )
    } else {
        &[]
    }
}

/// Makes all items this one.
fn fill<T: Copy>(items: &mut [T], x: T)
    ensures { items.new ≡ map (λ _. x) items.old }
{
    'items: for item in items.iter_mut() {
        *item = x;
    }
}

/// Adds so many copies of an item. Where it is refused, nothing has changed.
fn extend<T: Copy>(items: &mut Vec<T>, count: usize, x: T) -> Result<(), NoMemory>
    ensures ok { OnOk result (items.new.items ≡ items.old.items ++ replicate count x) }
    ensures same { OnErr result (items.new.items ≡ items.old.items) }
{
    items.reserve(count)?;
    'copies: for _ in 0..count {
        items.push_reserved(x);
    }
    Ok(())
}

impl<T> Rows<T> {
    pub fn new(alloc: Global) -> Rows<T>
        ensures { result ≡ [] }
    {
        Rows {
            items: Vec::new(alloc),
            starts: Vec::new(alloc),
        }
    }

    /// How many rows there are.
    pub fn rows(&self) -> usize
        ensures { result ≡ length self.now }
    {
        self.starts.len()
    }

    /// A row, empty past the last one.
    pub fn row(&self, r: usize) -> &[T]
        ensures { result.now ≡ row_at self.now r }
    {
        cut(self.items.as_slice(), self.starts.as_slice(), r)
    }

    /// All items, row by row.
    pub fn items(&self) -> &[T]
        ensures { result.now ≡ flat self.now }
    {
        self.items.as_slice()
    }

    /// The number of an item of a row among all items.
    pub fn number(&self, r: usize, k: usize) -> usize
        requires { k < length (row_at self.now r) }
        ensures { result ≡ number_of self.now r k }
    {
        start_of(self.starts.as_slice(), r, self.items.as_slice().len()) + k
    }

    /// An item of a row.
    pub fn at(&self, r: usize, k: usize) -> T
    where
        T: Copy,
        requires { k < length (row_at self.now r) }
        ensures { slice_get (row_at self.now r) k ≡ Some result }
    {
        self.row(r)[k]
    }

    /// Puts an item in the place of another.
    pub fn put(&mut self, r: usize, k: usize, x: T)
    where
        T: Drop,
        requires { k < length (row_at self.old r) }
        ensures { self.new ≡ slice_set self.old r (slice_set (row_at self.old r) k x) }
    {
        let n = start_of(self.starts.as_slice(), r, self.items.as_slice().len()) + k;
        self.items[n] = x;
    }

    /// Puts an item in the place of another, by its number among all items.
    pub fn put_item(&mut self, n: usize, x: T)
    where
        T: Drop,
        requires { n < length (flat self.old) }
        ensures items { flat self.new ≡ slice_set (flat self.old) n x }
        ensures shape { map length self.new ≡ map length self.old }
    {
        self.items[n] = x;
    }

    /// Makes all items this one.
    pub fn fill(&mut self, x: T)
    where
        T: Copy,
        ensures { self.new ≡ map (map (λ _. x)) self.old }
    {
        fill(self.items.as_mut_slice(), x);
    }

    /// Adds an empty row at the end. Where it is refused, nothing has changed.
    pub fn start_row(&mut self) -> Result<(), NoMemory>
        ensures ok { OnOk result (self.new ≡ self.old ++ [] ∷ []) }
        ensures same { OnErr result (self.new ≡ self.old) }
    {
        let end = self.items.as_slice().len();
        self.starts.push(end)?;
        Ok(())
    }

    /// Adds an item to the last row. Where it is refused, nothing has changed.
    pub fn push(&mut self, x: T) -> Result<(), NoMemory>
    where
        T: Drop,
        requires { 0 < length self.old }
        ensures ok { OnOk result (self.new ≡ with_item self.old x) }
        ensures same { OnErr result (self.new ≡ self.old) }
    {
        self.items.push(x)?;
        Ok(())
    }

    /// Adds a row of these items at the end. Where it is refused, nothing has changed.
    pub fn push_row(&mut self, row: &[T]) -> Result<(), NoMemory>
    where
        T: Copy,
        ensures ok { OnOk result (self.new ≡ self.old ++ row.now ∷ []) }
        ensures same { OnErr result (self.new ≡ self.old) }
    {
        self.starts.reserve(1)?;
        let start = self.items.as_slice().len();
        self.items.extend_from_slice(row)?;
        self.starts.push_reserved(start);
        Ok(())
    }
    /// Adds a row of so many copies of an item at the end. Where it is refused, nothing has changed.
    pub fn push_copies(&mut self, count: usize, x: T) -> Result<(), NoMemory>
    where
        T: Copy,
        ensures ok { OnOk result (self.new ≡ self.old ++ replicate count x ∷ []) }
        ensures same { OnErr result (self.new ≡ self.old) }
    {
        self.starts.reserve(1)?;
        let start = self.items.as_slice().len();
        extend(&mut self.items, count, x)?;
        self.starts.push_reserved(start);
        Ok(())
    }

    /// Rows of these lengths, of copies of an item.
    pub fn filled(alloc: Global, lengths: &[usize], x: T) -> Result<Rows<T>, NoMemory>
    where
        T: Copy,
        ensures { IfOk result (λ rows. rows ≡ map (λ n. replicate n x) lengths.now) }
    {
        let mut rows = Rows::new(alloc);
        'lengths: for length in lengths {
            rows.push_copies(*length, x)?;
        }
        Ok(rows)
    }
}
