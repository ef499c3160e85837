//! Flaws in the cut places of faces that straddle.
ghost use Rattle.std.specs.Prelude.{◌≡◌};
ghost use Rattle.split_checks.specs.begin_checks.Flaws.{first_showing, shows};

use crate::cut_places::FaceMet;

/// What a face that straddles must not be.
#[derive(Clone, Copy, Debug, PartialEq, Eq)]
pub(crate) enum Flaw {
    /// A corner lies on the plane and is no cut place.
    Touched,
    /// The outer loop has no cut place; or a ring has none, and the face doesn't have exactly two.
    CutOften,
}

/// Whether the face has the flaw.
fn shows(flaw: Flaw, met: FaceMet) -> bool
    ensures { result ≡ shows flaw met }
{
    match flaw {
        Flaw::Touched => met.touched,
        Flaw::CutOften => met.often,
    }
}

/// The first of the faces that has the flaw, if there is one.
pub(crate) fn first_flawed(flaw: Flaw, faces: &[FaceMet]) -> Option<u32>
    ensures { result ≡ first_showing flaw faces.now }
{
    let mut rest = faces;
    'faces: while let [met, others @ ..] = rest {
        if shows(flaw, *met) {
            return Some(met.face);
        }
        rest = others;
    }
    None
}
