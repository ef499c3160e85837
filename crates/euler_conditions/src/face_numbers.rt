//! Numbers of faces, in an operator's list or in a slice.
ghost use Rattle.std.specs.Prelude.{◌≡◌, ◌<◌, length, slice_index};

use euler_operators::FaceList;
use std::marker::Model;

/// Where the numbers stand.
#[derive(Drop)]
enum Place<'a> {
    List(&'a FaceList),
    Slice(&'a [u32]),
}

/// Numbers of faces, where they stand. Contracts see them as a list.
#[derive(Drop)]
pub(crate) struct FaceNumbers<'a> {
    place: Place<'a>,
}

impl<'a> Model for FaceNumbers<'a> {
    ghost use Rattle.std.specs.Prelude.{ℕ, List};

    ghost Value = { List ℕ };

    ghost use Rattle.euler_conditions.specs.Numbers.{numbers_at};

    ghost view = { λ a. numbers_at a.place };
}

/// The number that stands in a slice at an index.
fn number_in(faces: &[u32], index: usize) -> u32
    requires { index < length faces.now }
    ensures { result ≡ slice_index faces.now index }
{
    faces[index]
}

impl<'a> FaceNumbers<'a> {
    /// The numbers of an operator's list.
    pub(crate) fn listed(faces: &'a FaceList) -> FaceNumbers<'a>
        ensures { result ≡ faces.now }
    {
        FaceNumbers {
            place: Place::List(faces),
        }
    }

    /// The numbers of a slice.
    pub(crate) fn lent(faces: &'a [u32]) -> FaceNumbers<'a>
        ensures { result ≡ faces.now }
    {
        FaceNumbers {
            place: Place::Slice(faces),
        }
    }

    pub(crate) fn len(&self) -> usize
        ensures { result ≡ length self.now }
    {
        match &self.place {
            Place::List(faces) => faces.len(),
            Place::Slice(faces) => faces.len(),
        }
    }

    pub(crate) fn get(&self, index: usize) -> u32
        requires { index < length self.now }
        ensures { result ≡ slice_index self.now index }
    {
        match &self.place {
            Place::List(faces) => faces.get(index),
            Place::Slice(faces) => number_in(faces, index),
        }
    }
}
