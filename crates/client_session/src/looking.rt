// What the lines that read the tree answer.
ghost use Rattle.std.specs.Prelude.{◌≡◌, ◌∷◌, ◌++◌, [], false, map, IfOk};
ghost use Rattle.std.specs.Option.{option_copied};
ghost use Rattle.file_paths.specs.Path.{IsPath};
ghost use Rattle.tree_values.specs.Tree.{is_folder, children};
ghost use Rattle.client_session.specs.Looking.{node_found, shown, child_at, listed, entered, cat_answer, list_answer, enter_answer};

use shell_lang::{Child, Children, Fault, LineAnswer};
use std::alloc::{AllocError, Global};
use vol_tree::{Content, Node, Path, PathError, Tree, TreeError, TryCopy};

/// Answers `cat` of a word in the current folder.
pub(crate) fn cat(
    alloc: Global,
    tree: &Tree,
    folder: &Path,
    word: &Content,
) -> Result<LineAnswer, AllocError>
    ensures { IfOk result (λ answer. answer ≡ cat_answer tree.now folder.now word.now) }
{
    match Path::resolve(alloc, folder, word.bytes()) {
        Ok(path) => shown(tree, path),
        Err(PathError::Memory) => Err(AllocError),
        Err(refusal) => Ok(LineAnswer::Refused(Fault::Path(refusal))),
    }
}

/// Answers `ls` of a word in the current folder, or of the current folder itself.
pub(crate) fn list(
    alloc: Global,
    tree: &Tree,
    folder: &Path,
    word: Option<&Content>,
) -> Result<LineAnswer, AllocError>
    ensures { IfOk result (λ answer. answer ≡ list_answer tree.now folder.now (option_copied word.entry)) }
{
    let Some(word) = word else {
        return listed(alloc, tree, folder.copy()?);
    };
    match Path::resolve(alloc, folder, word.bytes()) {
        Ok(path) => listed(alloc, tree, path),
        Err(PathError::Memory) => Err(AllocError),
        Err(refusal) => Ok(LineAnswer::Refused(Fault::Path(refusal))),
    }
}

/// Answers `cd` to a word in the current folder.
pub(crate) fn enter(
    alloc: Global,
    tree: &Tree,
    folder: &Path,
    word: &Content,
) -> Result<LineAnswer, AllocError>
    ensures { IfOk result (λ answer. answer ≡ enter_answer tree.now folder.now word.now) }
{
    match Path::resolve(alloc, folder, word.bytes()) {
        Ok(path) => Ok(entered(tree, path)),
        Err(PathError::Memory) => Err(AllocError),
        Err(refusal) => Ok(LineAnswer::Refused(Fault::Path(refusal))),
    }
}

/// The content of a file.
fn shown(tree: &Tree, path: Path) -> Result<LineAnswer, AllocError>
    ensures { IfOk result (λ answer. answer ≡ shown path (node_found tree.now path)) }
{
    if tree.is_folder(&path) {
        return Ok(LineAnswer::Refused(Fault::Tree(TreeError::IsFolder(path))));
    }
    match tree.get(&path) {
        Some(Node::File { content, .. }) => Ok(LineAnswer::Text(content.copy()?)),
        _ => Ok(LineAnswer::Refused(Fault::Tree(TreeError::Missing(path)))),
    }
}

/// What stands in a folder.
fn listed(alloc: Global, tree: &Tree, path: Path) -> Result<LineAnswer, AllocError>
    ensures { IfOk result (λ answer. answer ≡ listed tree.now path (node_found tree.now path)) }
{
    if tree.is_folder(&path) {
        return Ok(LineAnswer::Listing(children_of(alloc, tree, &path)?));
    }
    Ok(no_folder(tree, path))
}

/// The folder that is entered.
fn entered(tree: &Tree, path: Path) -> LineAnswer
    ensures { result ≡ entered path (node_found tree.now path) }
{
    if tree.is_folder(&path) {
        return LineAnswer::At(path);
    }
    no_folder(tree, path)
}

/// Why no folder is at a path.
fn no_folder(tree: &Tree, path: Path) -> LineAnswer
    requires { is_folder tree.now path ≡ false }
    ensures listed { result ≡ listed tree.now path (node_found tree.now path) }
    ensures entered { result ≡ entered path (node_found tree.now path) }
{
    match tree.get(&path) {
        Some(_) => LineAnswer::Refused(Fault::NotFolder(path)),
        None => LineAnswer::Refused(Fault::Tree(TreeError::Missing(path))),
    }
}

/// The names in a folder, each with what stands there.
fn children_of(alloc: Global, tree: &Tree, folder: &Path) -> Result<Children, AllocError>
    ensures { IfOk result (λ found. found ≡ map (child_at tree.now folder.now) (children tree.now folder.now)) }
{
    let _rows = tree.count();
    let names = tree.children(folder)?;
    let mut found = Children::new(alloc);
    for name in names.as_slice() {
        found.push(child_at(alloc, tree, folder, name)?)?;
    }
    Ok(found)
}

/// A name in a folder, and whether a folder stands there. Want of memory is its only refusal.
#[tactic(auto, using(crate::proofs::Found::name_resolved))]
fn child_at(alloc: Global, tree: &Tree, folder: &Path, name: &Content) -> Result<Child, AllocError>
    requires { IsPath (folder.now ++ name.now ∷ []) }
    ensures { IfOk result (λ child. child ≡ child_at tree.now folder.now name.now) }
{
    match Path::resolve(alloc, folder, name.bytes()) {
        Ok(path) => Ok(Child {
            name: name.copy()?,
            folder: tree.is_folder(&path),
        }),
        Err(_) => Err(AllocError),
    }
}
