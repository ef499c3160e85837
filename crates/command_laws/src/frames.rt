//! What a block leaves unchanged: the solids of faces, loops, the ends of edges and the points of vertices.
ghost use Rattle.command_laws.specs.Framed.{BlockKeepsOwners, BlockKeepsLoops, BlockKeepsEdges, BlockKeepsPoints, BlockKeepsShapes, FacesStand};

/// After a block each face that was there keeps its solid, each loop its face and its content, each edge its ends, and each vertex its point. So
/// each face keeps its outer loop, rings, corner points and plane.
pub fn blocks_leave_alone()
    ensures owners { BlockKeepsOwners }
    ensures loops { BlockKeepsLoops }
    ensures edges { BlockKeepsEdges }
    ensures points { BlockKeepsPoints }
    ensures shapes { BlockKeepsShapes }
{}

/// A face that stands as it did still has the solid, the corner points and the plane that it was known to have.
pub fn faces_stand()
    ensures { FacesStand }
{}
