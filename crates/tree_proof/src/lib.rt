//! Certificates for one path of a tree: who holds the root of a tree, 32 bytes, checks what stands at a path without the tree.
#![tactic(auto)]

mod certificate;
mod checking;
mod laws;
mod proving;
mod slim;
mod taking;
mod tops;

pub use checking::{CheckError, Finding, check};
pub use laws::{findings_are_true, proofs_are_taken, tops_are_of_pairs};
pub use proving::{prove, root_of};
pub use slim::{SlimNode, SlimRow};
