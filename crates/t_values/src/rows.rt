//! Rows that are a tree or none, and a folder that is made above a row and undone.

use std::alloc::{AllocError, Global};
use std::rt::HostRuntime;
use std::test::Fail;
use vol_tree::{Content, Effect, Node, Path, Row, Rows, RowsError, Tree};

/// What stands at a path: the path's text, how often it was changed, and whether a file stands there or nothing.
#[derive(Clone, Copy)]
struct Told {
    text: &'static [u8],
    version: u64,
    is_file: bool,
}

/// A file with one byte at the path.
const fn file(text: &'static [u8], version: u64) -> Told {
    Told {
        text,
        version,
        is_file: true,
    }
}

/// Nothing at the path any more.
const fn nothing(text: &'static [u8], version: u64) -> Told {
    Told {
        text,
        version,
        is_file: false,
    }
}

fn row(alloc: Global, told: Told) -> Result<Row, Fail> {
    let content = Content::of(alloc, b"x")?;
    let path = Path::read(alloc, told.text)?;
    let node = if told.is_file {
        Some(Node::File {
            content,
            exec: false,
        })
    } else {
        None
    };
    Ok(Row {
        path,
        version: told.version,
        node,
    })
}

fn rows(alloc: Global, all: &[Told]) -> Result<Rows, Fail> {
    let mut rows = Rows::new(alloc);
    for told in all {
        rows.push(row(alloc, *told)?)?;
    }
    Ok(rows)
}

/// The first of these rows that breaks a rule of trees.
fn first_refused(alloc: Global, all: &[Told]) -> Result<Option<u32>, Fail> {
    match Tree::from_rows(alloc, rows(alloc, all)?) {
        Ok(tree) => {
            drop(tree);
            Ok(None)
        }
        Err(RowsError::BadRow(place)) => Ok(Some(place)),
        Err(RowsError::Memory) => Err(Fail::from(AllocError)),
    }
}

#[test]
fn rows_are_a_tree_or_refused(rt: HostRuntime) -> Result<(), Fail> {
    let alloc = rt.alloc();
    assert!(rt; first_refused(alloc, &[file(b"a", 1)])? == None);
    assert!(rt; first_refused(alloc, &[file(b"a", 0)])? == Some(0));
    assert!(rt; first_refused(alloc, &[file(b"d/x", 1)])? == Some(0));
    let falling = [nothing(b"b", 1), nothing(b"a", 1)];
    assert!(rt; first_refused(alloc, &falling)? == Some(1));
    Ok(())
}

/// The spelling of a tree in which nothing stands any more at `d/x`: one row, its path, its version, and that nothing stands there.
const LEFT: [u8; 18] = [
    0, 0, 0, 1, 0, 3, b'd', b'/', b'x', 0, 0, 0, 0, 0, 0, 0, 1, 0,
];

/// Whether the tree's rows are spelled so.
fn is_spelled(tree: &Tree, by_hand: &[u8]) -> Result<bool, AllocError> {
    let mut out = Vec::new(tree.allocator());
    tree.spell_rows(&mut out)?;
    Ok(out.as_slice() == by_hand)
}

/// Whether the tree has such rows before the effect and once it is undone, and one row more in between.
fn is_undone(tree: &mut Tree, effect: &Effect, by_hand: &[u8]) -> Result<[bool; 3], Fail> {
    let before = is_spelled(tree, by_hand)?;
    let count = tree.count();
    let undo = tree.apply(effect)?;
    let more = tree.count() > count;
    tree.undo(undo);
    Ok([before, more, is_spelled(tree, by_hand)?])
}

/// The same of the making of a folder above that row.
fn is_unmade(alloc: Global) -> Result<[bool; 3], Fail> {
    let mut tree = Tree::from_rows(alloc, rows(alloc, &[nothing(b"d/x", 1)])?)?;
    let made = Effect::Make(Path::read(alloc, b"d")?);
    let undone = is_undone(&mut tree, &made, &LEFT);
    drop(made);
    drop(tree);
    undone
}

#[test]
fn a_row_stays_below_a_folder_that_is_undone(rt: HostRuntime) -> Result<(), Fail> {
    assert!(rt; is_unmade(rt.alloc())? == [true; 3]);
    Ok(())
}
