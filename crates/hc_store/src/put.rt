//! Numbers that are put in their places.
ghost use Rattle.std.specs.Prelude.{◌≡◌, ◌<◌, ◌↔◌, length, slice_get, true, Some};
ghost use Rattle.hc_rows.specs.Rows.{row_at};
ghost use Rattle.hc_store.specs.Given.{IsFit};
ghost use Rattle.hc_store.specs.Stored.{IsRowPut, IsStoreOf};

use crate::site::Site;
use crate::store::Store;
use crate::waking::wake_all;
use hc_bits::Bits;
use hc_rows::Rows;

/// Whether this number is at a node of an instance.
fn is_at(values: &Rows<Bits>, p: usize, node: u32, x: Bits) -> bool
    requires { node < length (row_at values.now p) }
    ensures { (result ≡ true) ↔ (slice_get (row_at values.now p) node ≡ Some x) }
{
    values.at(p, node as usize) == x
}

/// Puts a number at a node of an instance. Where another one is there, these parts are woken first, and the instance has moved.
pub(crate) fn put(site: &Site<'_>, store: &mut Store, p: usize, node: u32, x: Bits, parts: &[u32])
    requires fit { IsFit site.now }
    requires store { IsStoreOf site.now store.old }
    requires node { node < length (row_at store.old.values p) }
    requires instance { p < length site.now.entries }
    ensures { IsRowPut site.now.up p node x parts.now store.old store.new }
{
    if is_at(&store.values, p, node, x) {
        return;
    }
    wake_all(site.up(), &mut store.stale, p, parts);
    store.values.put(p, node as usize, x);
    store.moved[p] = true;
}
