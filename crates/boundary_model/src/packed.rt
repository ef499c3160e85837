//! Corners in fewer bytes.
ghost use Rattle.std.specs.Prelude.{◌≡◌};
ghost use Rattle.boundary_model.specs.Corner.{named_corner};
ghost use Rattle.boundary_model.specs.declared.Corner.TheVariants as corner;

use crate::{Corner, HalfEdge};
use std::marker::Model;

/// What the number of a packed corner names: the edge of a half-edge, or a lone loop.
#[derive(Clone, Copy)]
enum Named {
    Plus,
    Minus,
    Lone,
}

/// A corner in five bytes, for operators, of which a record keeps many. Contracts see the corner.
#[derive(Drop)]
pub struct PackedCorner {
    named: Named,
    number: [u8; 4],
}

impl Model for PackedCorner {
    ghost use Rattle.std.specs.Int.{from_le_bytes, w32};
    ghost use Rattle.boundary_model.specs.declared.Corner.{Corner};
    ghost use Rattle.boundary_model.specs.Corner.{named_corner};

    ghost Value = { Corner };

    ghost view = { λ p. named_corner p.named (from_le_bytes w32 p.number) };
}

impl PackedCorner {
    /// The corner that was packed.
    pub fn corner(&self) -> Corner
        ensures { result ≡ self.now }
    {
        let number = u32::from_le_bytes(self.number);
        match self.named {
            Named::Plus => Corner::At(HalfEdge {
                edge: number,
                first: true,
            }),
            Named::Minus => Corner::At(HalfEdge {
                edge: number,
                first: false,
            }),
            Named::Lone => Corner::Lone(number),
        }
    }
}

/// The corner of what is named by this number, packed.
fn packed(named: Named, number: u32) -> PackedCorner
    ensures { result ≡ named_corner named number }
{
    PackedCorner {
        named,
        number: number.to_le_bytes(),
    }
}

impl HalfEdge {
    /// The corner at its tail, packed.
    pub fn corner(self) -> PackedCorner
        ensures { result ≡ corner.At self }
    {
        let named = if self.first {
            Named::Plus
        } else {
            Named::Minus
        };
        packed(named, self.edge)
    }
}

impl Corner {
    /// The corner, packed.
    pub fn packed(self) -> PackedCorner
        ensures { result ≡ self }
    {
        match self {
            Corner::At(half) => half.corner(),
            Corner::Lone(number) => packed(Named::Lone, number),
        }
    }
}
