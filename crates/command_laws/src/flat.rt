//! Which faces lie flat.
ghost use Rattle.command_laws.specs.Flat.{FacesLieFlat, PlanarLieFlat, SidesLieFlat, FarFacesLieFlat, BlocksLieFlat, BlockKeepsFlat, GluesLieFlat, GlueKeepsFlat};

/// A face without rings is flat exactly if its corners lie on one plane that has a direction. Any face whose corners lie on some plane is flat,
/// unless it has no area. So a side of a sweep is flat, unless its edge is parallel to the vector. A face that was swept is flat exactly if it was
/// before. All faces of a new block, and of the solid that a glue keeps, are flat, and none of their loops is a lone vertex. Every other solid of
/// which this was true before a block or a glue keeps it.
pub fn faces_lie_flat()
    ensures corners { FacesLieFlat }
    ensures planar { PlanarLieFlat }
    ensures sides { SidesLieFlat }
    ensures far { FarFacesLieFlat }
    ensures block { BlocksLieFlat }
    ensures kept { BlockKeepsFlat }
    ensures glued { GluesLieFlat }
    ensures beside { GlueKeepsFlat }
{}
