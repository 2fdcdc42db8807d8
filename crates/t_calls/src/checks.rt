// What lines do to a tree, and what is wanted of its certificates.

/// What a line does to the tree.
#[derive(Clone, Copy)]
pub(crate) enum Edit {
    Make,
    Put,
    Mode,
    Remove,
}

/// What a line gives to be checked.
#[derive(Clone, Copy)]
pub(crate) enum Claim {
    /// The root at hand.
    Root,
    /// The path that is asked for.
    Path,
    Certificate,
}

/// What a line looks at.
#[derive(Clone, Copy)]
pub(crate) enum View {
    /// The root of the tree, which is then at hand.
    Root,
    /// What is proved of a path, which is then asked for, and checked.
    Proof,
    /// What the certificate says.
    Said,
    /// What a front of it says.
    SaidByFront,
    /// What it says with another byte at a place.
    SaidWithByte,
}
