//! A question about a model.
ghost use Rattle.std.specs.Prelude.{◌≡◌};
ghost use Rattle.euler_conditions.specs.Ready.{IsReady};
ghost use Rattle.commands.specs.Telling.{asked};

use call_types::Question;
use euler_conditions::Arena;
use solid_listing::Told;
use solid_measure::{counts, is_flat, plane, six_volume};

// Each measure is matched where it is answered, instead of passed on by `?`, so that it is moved only once.

/// The plane of a face, and whether the face is flat.
fn plane_told(arena: &Arena, face: u32) -> Told
    requires { IsReady arena.now }
    ensures { result ≡ asked arena.now.model (Question.Plane face) }
{
    let plane = match plane(arena, face) {
        Ok(plane) => plane,
        Err(refusal) => return Told::Refused(refusal),
    };
    match is_flat(arena, face) {
        Ok(flat) => Told::Plane(plane, flat),
        Err(refusal) => Told::Refused(refusal),
    }
}

/// Six times the volume of a solid.
fn volume_told(arena: &Arena, solid: u32) -> Told
    requires { IsReady arena.now }
    ensures { result ≡ asked arena.now.model (Question.Volume solid) }
{
    match six_volume(arena, solid) {
        Ok(volume) => Told::Volume(volume),
        Err(refusal) => Told::Refused(refusal),
    }
}

/// The counts of a solid.
fn counts_told(arena: &Arena, solid: u32) -> Told
    requires { IsReady arena.now }
    ensures { result ≡ asked arena.now.model (Question.Count solid) }
{
    match counts(arena, solid) {
        Ok(tally) => Told::Counts(tally),
        Err(refusal) => Told::Refused(refusal),
    }
}

/// Answers a question about the arena's model: with a value, or with its first false condition.
#[inline(always)]
pub fn ask(arena: &Arena, question: Question) -> Told
    requires { IsReady arena.now }
    ensures { result ≡ asked arena.now.model question }
{
    match question {
        Question::Plane(face) => plane_told(arena, face),
        Question::Volume(solid) => volume_told(arena, solid),
        Question::Count(solid) => counts_told(arena, solid),
    }
}
