//! What holds of parcels: functions that do nothing, whose contracts are laws.

ghost use Rattle.store_parcels.specs.Laws.{FramesStay, ParcelsHaveNoKind, PrintsAreOne, StoresAreNamed};

/// States that a parcel opens to the frame of no other store than it names, and over all volumes to frames of one print: to one frame,
/// or two frames have one SHA-256.
pub fn parcels_are_true()
    ensures stores { StoresAreNamed }
    ensures prints { PrintsAreOne }
{}

/// States that frames of messages are no parcels: they do not open, and to a reader of messages a parcel is a frame of no known kind.
pub fn parcels_are_apart()
    ensures kind { ParcelsHaveNoKind }
    ensures frames { FramesStay }
{}
