// What is written of the volume that is kept under a name.
ghost use Rattle.std.specs.Prelude.{◌≡◌, Ok, IfOk};
ghost use Rattle.outside.specs.Outside.{CountsFault};
ghost use Rattle.outside.specs.Keeper.{kept_under};
ghost use Rattle.hex.specs.Hex.{encode_lower};
ghost use Rattle.file_paths.specs.Path.{FilePath, path_of};
ghost use Rattle.server_prog.specs.Run.{WritesByEnd, root_line, path_proof};

use crate::run::{Stopped, opened};
use hex::encode_to_slice;
use outside::{Keeper, Sink, write_all};
use std::alloc::{AllocError, Global};
use tree_proof::{prove, root_of};
use vol_tree::{Path, Tree};

/// Writes the root of the volume that is kept under the name, or of a new server's.
pub(crate) fn tell_root<K: Keeper, O: Sink>(
    alloc: Global,
    name: &[u8],
    keeper: &mut K,
    output: &mut O,
) -> Result<(), Stopped>
    ensures writes { WritesByEnd root_line (kept_under name.now (K.images keeper.old)) (O.written output.old) (O.written output.new)
        result }
    ensures images { K.images keeper.new ≡ K.images keeper.old }
    ensures sink { CountsFault Stopped.Sink (O.faults output.old) (O.faults output.new) result }
    ensures keeper { CountsFault Stopped.Keeper (K.faults keeper.old) (K.faults keeper.new) result }
{
    let server = opened(alloc, name, keeper)?;
    let line = root_line(alloc, server.tree());
    drop(server);
    write_all(output, &line?)?;
    Ok(())
}

/// Writes the certificate of the path of this text in the volume that is kept under the name, or in a new server's.
pub(crate) fn tell_proof<K: Keeper, O: Sink>(
    alloc: Global,
    name: &[u8],
    text: &[u8],
    keeper: &mut K,
    output: &mut O,
) -> Result<(), Stopped>
    ensures writes { (path : FilePath) → path_of text.now ≡ Ok path
        → WritesByEnd (path_proof path) (kept_under name.now (K.images keeper.old)) (O.written output.old) (O.written output.new) result }
    ensures images { K.images keeper.new ≡ K.images keeper.old }
    ensures sink { CountsFault Stopped.Sink (O.faults output.old) (O.faults output.new) result }
    ensures keeper { CountsFault Stopped.Keeper (K.faults keeper.old) (K.faults keeper.new) result }
{
    let server = opened(alloc, name, keeper)?;
    let proof = path_proof(alloc, server.tree(), text);
    drop(server);
    write_all(output, &proof?)?;
    Ok(())
}

/// The digits of the root, and a line end.
fn root_line(alloc: Global, tree: &Tree) -> Result<Vec<u8>, AllocError>
    ensures { IfOk result (λ line. line.items ≡ root_line tree.now) }
{
    let root = root_of(tree)?;
    let mut line = Vec::new(alloc);
    line.extend_from_slice(&digits_of(&root))?;
    line.push(b'\n')?;
    Ok(line)
}

/// The certificate of the path of this text. A text of no path has none.
fn path_proof(alloc: Global, tree: &Tree, text: &[u8]) -> Result<Vec<u8>, AllocError>
    ensures { IfOk result (λ proof. (path : FilePath) → path_of text.now ≡ Ok path → proof.items ≡ path_proof path tree.now) }
{
    match Path::read(alloc, text) {
        Ok(path) => prove(tree, &path),
        Err(_refused) => Err(AllocError),
    }
}

/// The lower-case hexadecimal digits of a digest.
fn digits_of(digest: &[u8; 32]) -> [u8; 64]
    ensures { result ≡ encode_lower digest.now }
{
    let mut digits = [0; 64];
    let _written = encode_to_slice(digest.as_slice(), &mut digits);
    digits
}
