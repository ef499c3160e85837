//! The last answer, as values.
ghost use Rattle.std.specs.Prelude.{◌≡◌, ◌+◌, ◌*◌, ◌<◌, ◌≤ℤ◌, pos, unsigned_abs};
ghost use Rattle.session_slots.specs.Answered.{refusal_in, fault_in, counts_in, volume_in, plane_in, joined, joined_plane};

use euler_operators::Plane;
use solid_listing::Told;

/// What a refusal names: the number of the condition that is false, and the value that goes with it.
#[repr(C)]
#[derive(Clone, Copy)]
pub struct Refused {
    pub number: u32,
    pub value: u32,
}

/// What a count counts: vertices, edges, faces and rings, and `v - e + f - r`.
#[repr(C)]
#[derive(Clone, Copy)]
pub struct Counts {
    pub vertices: i64,
    pub edges: i64,
    pub faces: i64,
    pub rings: i64,
    pub sum: i64,
}

/// A number in two halves: `high * 2^64 + low`.
#[repr(C)]
#[derive(Clone, Copy)]
pub struct Wide {
    pub high: i64,
    pub low: u64,
}

/// The plane of a face: the points at which `a x + b y + c z + d` is zero; and 1 if the face is flat, 0 if it is bent.
#[repr(C)]
#[derive(Clone, Copy)]
pub struct PlaneRow {
    pub a: Wide,
    pub b: Wide,
    pub c: Wide,
    pub d: Wide,
    pub flat: u32,
}

/// A number that is not negative, in two halves.
fn split_in_words(number: u128) -> (i64, u64)
    requires { number < 170141183460469231731687303715884105728 }
    ensures value { number ≡ unsigned_abs result.0 * 18446744073709551616 + result.1 }
    ensures sign { pos 0 ≤ℤ result.0 }
{
    let word = 1 << 64;
    ((number / word) as i64, (number % word) as u64)
}

/// A number in two halves.
pub fn halves(number: i128) -> Wide
    ensures { joined result ≡ number }
{
    if number >= 0 {
        let (high, low) = split_in_words(number as u128);
        Wide { high, low }
    } else {
        let (high, low) = split_in_words(-(number + 1) as u128);
        Wide {
            high: -1 - high,
            low: u64::MAX - low,
        }
    }
}

/// What the refusal names, if the answer is one.
pub fn refusal_of(answer: &Told) -> Option<Refused>
    ensures { result ≡ refusal_in answer.now }
{
    match answer {
        Told::Refused(refusal) => Some(Refused {
            number: refusal.why.code(),
            value: refusal.number,
        }),
        _ => None,
    }
}

/// The number of the fault, if the answer is one.
pub fn fault_of(answer: &Told) -> Option<u32>
    ensures { result ≡ fault_in answer.now }
{
    match answer {
        Told::Fault(number) => Some(*number),
        _ => None,
    }
}

/// The counts, if the answer tells them.
pub fn counts_of(answer: &Told) -> Option<Counts>
    ensures { result ≡ counts_in answer.now }
{
    match answer {
        Told::Counts(tally) => Some(Counts {
            vertices: tally.v as i64,
            edges: tally.e as i64,
            faces: tally.f as i64,
            rings: tally.r as i64,
            sum: tally.sum,
        }),
        _ => None,
    }
}

/// Six times the volume, if the answer tells it.
pub fn volume_of(answer: &Told) -> Option<i128>
    ensures { result ≡ volume_in answer.now }
{
    match answer {
        Told::Volume(n) => Some(*n),
        _ => None,
    }
}

/// The plane and whether its face is flat, if the answer tells them.
pub fn plane_of(answer: &Told) -> Option<(Plane, u32)>
    ensures { result ≡ plane_in answer.now }
{
    match answer {
        Told::Plane(plane, flat) => Some((*plane, u32::from(*flat))),
        _ => None,
    }
}

/// A plane whose coefficients are in halves.
pub fn plane_row(plane: Plane, flat: u32) -> PlaneRow
    ensures { joined_plane result ≡ (plane, flat) }
{
    PlaneRow {
        a: halves(plane.a),
        b: halves(plane.b),
        c: halves(plane.c),
        d: halves(plane.d),
        flat,
    }
}
