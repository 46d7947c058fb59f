//! Which calls fail, by their number.
ghost use Rattle.std.specs.Prelude.{◌≡◌, ◌==◌, ◌+◌};
ghost use Rattle.std.specs.List.{list_any};

// Whether the next call's number is among the failing ones, after this many calls.
pub(crate) fn next_fails(failing: &[u64], made: u64) -> bool
    ensures { result ≡ list_any (λ number. number == made + 1) failing.now }
{
    match made.checked_add(1) {
        Some(number) => failing.contains(&number),
        None => false,
    }
}
