//! The lesser of two numbers, either of which may be missing.
ghost use Rattle.std.specs.Prelude.{◌≡◌};
ghost use Rattle.solid_walks.specs.Least.{lesser};

/// The lesser of two numbers; if there is only one, this one.
pub fn lesser(one: Option<u32>, other: Option<u32>) -> Option<u32>
    ensures { result ≡ lesser one other }
{
    match (one, other) {
        (Some(m), Some(n)) => { if m <= n { Some(m) } else { Some(n) } }
        (Some(m), None) => Some(m),
        (None, n) => n,
    }
}
