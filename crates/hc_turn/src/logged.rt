//! What a lock can keep.
ghost use Rattle.std.specs.Prelude.{List};

/// A value with a log, a list of items that tells its history. The log stands in contracts alone.
pub trait Logged {
    type Item;

    ghost log: { Self → List Self.Item };
}
