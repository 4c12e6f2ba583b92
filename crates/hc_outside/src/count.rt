ghost use Rattle.std.specs.Prelude.{◌≡◌};
ghost use Rattle.hc_outside.specs.Causes.{raised};

/// The count after one more. At the end of its type it stands still.
pub(crate) fn raised(count: u64) -> u64
    ensures { result ≡ raised count }
{
    count.saturating_add(1)
}
