//! Laws of repairs, each as the contract of a function that does nothing.

ghost use Rattle.rs_repair.specs.Repair.{NearContentsAreRepaired, OneRepair};

/// At most one content repairs a content by a sketch.
pub fn one_repair()
    ensures { OneRepair }
{}

/// A content that differs from a sketched one in at most 16 symbols of each block is repaired to it.
pub fn near_contents_are_repaired()
    ensures { NearContentsAreRepaired }
{}
