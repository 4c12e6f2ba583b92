//! Parts that are to be run again.
ghost use Rattle.std.specs.Prelude.{◌≡◌, ℕ, ◌<◌, ◌∷◌, [], length, map};
ghost use Rattle.hc_rows.specs.Rows.{flat};
ghost use Rattle.hc_store.specs.Marks.{AreClosed, AreMoreMarked, AreUp, IsOn};

use hc_rows::Rows;

/// Marks the part with this number, the part that runs it, and so on, up to a part that is marked already.
fn wake_from(up: &[u32], stale: &mut Rows<bool>, part: usize)
    requires up { AreUp up.now }
    requires many { length up.now ≡ length (flat stale.old) }
    requires there { part < length (flat stale.old) }
    ensures shape { map length stale.new ≡ map length stale.old }
    ensures grown { (k : ℕ) → IsOn (flat stale.old) k → IsOn (flat stale.new) k }
    ensures on { IsOn (flat stale.new) part }
    ensures closed { AreClosed up.now (flat stale.old) → AreClosed up.now (flat stale.new) }
{
    let mut at = part;
    'up: while !stale.items()[at] {
        stale.put_item(at, true);
        at = up[at] as usize;
    }
}

/// Marks a part of an instance, with what runs it.
pub fn wake(up: &Rows<u32>, stale: &mut Rows<bool>, p: usize, part: u32)
    requires up { AreUp (flat up.now) }
    requires shape { map length up.now ≡ map length stale.old }
    ensures { AreMoreMarked up.now p (part ∷ []) stale.old stale.new }
{
    if (part as usize) < stale.row(p).len() {
        let at = stale.number(p, part as usize);
        wake_from(up.items(), stale, at);
    }
}

/// Marks parts of an instance, each with what runs it.
pub fn wake_all(up: &Rows<u32>, stale: &mut Rows<bool>, p: usize, parts: &[u32])
    requires up { AreUp (flat up.now) }
    requires shape { map length up.now ≡ map length stale.old }
    ensures { AreMoreMarked up.now p parts.now stale.old stale.new }
{
    'parts: for part in parts {
        wake(up, stale, p, *part);
    }
}
