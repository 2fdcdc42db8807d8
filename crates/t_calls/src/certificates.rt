// A tree, its root, and what certificates say.

use crate::checks::{Claim, Edit, View};
use crate::said::told;
use std::alloc::Global;
use t_scene_files::{Fault, Line, Report, number, small};
use tree_proof::{check, prove, root_of};
use vol_tree::{Content, Effect, Path, PathError, Tree, TreeError};

/// A tree, and what is checked: what a certificate says of a path against a root.
#[derive(Drop)]
pub(crate) struct Certificates {
    alloc: Global,
    tree: Tree,
    root: [u8; 32],
    path: Path,
    bytes: Vec<u8>,
    is_looked_at: bool,
}

impl Certificates {
    /// A tree without rows, and nothing to be checked.
    pub(crate) fn new(alloc: Global) -> Certificates {
        Certificates {
            alloc,
            tree: Tree::new(alloc),
            root: [0; 32],
            path: Path::root(alloc),
            bytes: Vec::new(alloc),
            is_looked_at: true,
        }
    }

    /// The tree has no rows, and nothing is to be checked.
    pub(crate) fn begin(&mut self) {
        self.tree = Tree::new(self.alloc);
        self.root = [0; 32];
        self.path = Path::root(self.alloc);
        self.bytes.clear();
        self.is_looked_at = true;
    }

    pub(crate) fn is_looked_at(&self) -> bool {
        self.is_looked_at
    }

    /// Changes the tree.
    pub(crate) fn edit(&mut self, edit: Edit, line: Line<'_>) -> Result<(), Fault> {
        self.is_looked_at = false;
        let effect = effect_of(self.alloc, edit, line)?;
        let applied = self.tree.apply(&effect);
        drop(effect);
        match applied {
            Ok(undo) => {
                drop(undo);
                Ok(())
            }
            Err(TreeError::Memory) => Err(Fault::Memory),
            Err(refused) => {
                drop(refused);
                Err(Fault::Line("the tree refuses this"))
            }
        }
    }

    /// Sets what is to be checked.
    pub(crate) fn claim(&mut self, claim: Claim, line: Line<'_>) -> Result<(), Fault> {
        self.is_looked_at = false;
        match claim {
            Claim::Root => self.set_root(line.block),
            Claim::Path => {
                self.path = path_of(self.alloc, line.rest)?;
                Ok(())
            }
            Claim::Certificate => {
                self.bytes = line.block.to_vec(self.alloc)?;
                Ok(())
            }
        }
    }

    fn set_root(&mut self, bytes: &[u8]) -> Result<(), Fault> {
        if bytes.len() != 32 {
            return Err(Fault::Line("a root has 32 bytes"));
        }
        self.root.copy_from_slice(bytes);
        Ok(())
    }

    /// Looks at what the line wants.
    pub(crate) fn look(
        &mut self,
        report: &mut Report,
        view: View,
        line: Line<'_>,
    ) -> Result<(), Fault> {
        self.is_looked_at = true;
        report.look();
        match view {
            View::Root => self.look_at_root(report, line.block),
            View::Proof => self.look_at_proof(report, line),
            View::Said => self.look_at_said(report, &self.bytes, line.rest),
            View::SaidByFront => {
                let (place, said) = two_parts(line.rest)?;
                let mut other = self.bytes.to_vec(self.alloc)?;
                other.truncate(number(place)? as usize);
                self.look_at_said(report, &other, said)
            }
            View::SaidWithByte => {
                let (place, rest) = two_parts(line.rest)?;
                let (byte, said) = two_parts(rest)?;
                let mut other = self.bytes.to_vec(self.alloc)?;
                set(&mut other, number(place)? as usize, small(byte)?)?;
                self.look_at_said(report, &other, said)
            }
        }
    }

    /// The tree's root is this, and is at hand from here on.
    fn look_at_root(&mut self, report: &mut Report, wanted: &[u8]) -> Result<(), Fault> {
        let root = root_of(&self.tree)?;
        self.root = root;
        Ok(report.compare(&root, wanted)?)
    }

    /// The tree's certificate for the path is this, and is checked from here on.
    fn look_at_proof(&mut self, report: &mut Report, line: Line<'_>) -> Result<(), Fault> {
        self.path = path_of(self.alloc, line.rest)?;
        self.bytes = prove(&self.tree, &self.path)?;
        Ok(report.compare(&self.bytes, line.block)?)
    }

    /// These bytes say this of the path against the root.
    fn look_at_said(&self, report: &mut Report, bytes: &[u8], wanted: &str) -> Result<(), Fault> {
        let checked = check(self.alloc, &self.root, &self.path, bytes);
        let said = told(self.alloc, &checked);
        drop(checked);
        let said = said?;
        let compared = report.compare(said.as_bytes(), wanted.as_bytes());
        drop(said);
        Ok(compared?)
    }
}

fn set(bytes: &mut Vec<u8>, place: usize, byte: u8) -> Result<(), Fault> {
    match bytes.get_mut(place) {
        Some(here) => {
            *here = byte;
            Ok(())
        }
        None => Err(Fault::Line("there is no such byte")),
    }
}

/// A word, and what stands behind it.
fn two_parts(text: &str) -> Result<(&str, &str), Fault> {
    match text.split_once(' ') {
        Some(parts) => Ok(parts),
        None => Err(Fault::Line("more words are wanted here")),
    }
}

fn path_of(alloc: Global, word: &str) -> Result<Path, Fault> {
    match Path::read(alloc, word.as_bytes()) {
        Ok(path) => Ok(path),
        Err(PathError::Memory) => Err(Fault::Memory),
        Err(_) => Err(Fault::Line("that is no path")),
    }
}

/// What the line does to a tree.
fn effect_of(alloc: Global, edit: Edit, line: Line<'_>) -> Result<Effect, Fault> {
    match edit {
        Edit::Make => Ok(Effect::Make(path_of(alloc, line.rest)?)),
        Edit::Put => {
            let path = path_of(alloc, line.rest)?;
            Ok(Effect::Put(path, Content::of(alloc, line.block)?))
        }
        Edit::Mode => {
            let (word, bit) = two_parts(line.rest)?;
            let path = path_of(alloc, word)?;
            Ok(Effect::Mode(path, bit == "1"))
        }
        Edit::Remove => Ok(Effect::Remove(path_of(alloc, line.rest)?)),
    }
}
