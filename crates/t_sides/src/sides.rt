//! Three sides and what they come to, as texts.

ghost use Rattle.std.specs.Prelude.{◌≡◌, [], IfOk};
ghost use Rattle.cmd_capture.specs.Rows.{AreJobRows};
ghost use Rattle.folder_sides.specs.Sides.{AreSides};
ghost use Rattle.folder_sides.specs.Sides as rules;

use cmd_capture::{JobRow, JobRows, RawRow, RawRows};
use folder_sides::{Sides, conflicts, laying, merged, taken};
use std::alloc::{AllocGlobal, Global};
use std::rt::HostRuntime;
use std::test::Fail;
use vol_tree::{Content, Effect, Node, Path, Paths};
use work_area::rows_of;

/// The rows of words: `d/` a folder, `a=x` a file.
fn rows(alloc: Global, text: &str) -> Result<JobRows, Fail>
    ensures { IfOk result AreJobRows }
{
    let mut raws = RawRows::new(alloc);
    for word in text.split(' ') {
        let raw = match word.split_once('=') {
            Some((path, content)) => RawRow {
                path: Content::of(alloc, path.as_bytes())?,
                node: Node::File {
                    content: Content::of(alloc, content.as_bytes())?,
                    exec: content.ends_with('x'),
                },
            },
            None => RawRow {
                path: Content::of(alloc, word.trim_end_matches('/').as_bytes())?,
                node: Node::Folder,
            },
        };
        if !word.is_empty() {
            raws.push(raw)?;
        } else {
            drop(raw);
        }
    }
    let rows = rows_of(alloc, &raws)?;
    drop(raws);
    Ok(rows)
}

fn push_node(text: &mut String, node: Option<&Node>) -> Result<(), Fail> {
    match node {
        None => text.push_str("-")?,
        Some(Node::Folder) => text.push_str("/")?,
        Some(Node::File { content, .. }) => {
            text.push_str("=")?;
            text.push_str(str::from_utf8(content.bytes()).unwrap_or("?"))?;
        }
    }
    Ok(())
}

fn push_path(text: &mut String, path: &Path) -> Result<(), Fail> {
    if !text.is_empty() {
        text.push_str(" ")?;
    }
    text.push_str(str::from_utf8(path.text()?.bytes()).unwrap_or("?"))?;
    Ok(())
}

fn push_row(text: &mut String, row: &JobRow) -> Result<(), Fail> {
    push_path(text, &row.path)?;
    push_node(text, Some(&row.node))
}

fn push_effect(text: &mut String, effect: &Effect) -> Result<(), Fail> {
    match effect {
        Effect::Make(path) => {
            push_path(text, path)?;
            text.push_str("/")?;
        }
        Effect::Put(path, _) => {
            push_path(text, path)?;
            text.push_str("=")?;
        }
        Effect::Remove(path) => {
            push_path(text, path)?;
            text.push_str("-")?;
        }
        Effect::Mode(path, _) => {
            push_path(text, path)?;
            text.push_str("+")?;
        }
        Effect::Move(_, _) => {}
    }
    Ok(())
}

/// The rows behind a laying, and its steps.
fn push_laying(alloc: Global, text: &mut String, sides: &Sides) -> Result<(), Fail>
    requires sides { AreSides sides.now }
    requires none { rules.conflicts sides.now ≡ [] }
{
    let rows = merged(alloc, sides)?;
    for row in rows.as_slice() {
        push_row(text, row)?;
    }
    drop(rows);
    text.push_str(" |")?;
    let steps = laying(alloc, sides)?;
    for step in steps.as_slice() {
        push_path(text, &step.path)?;
        push_node(text, step.before.as_ref())?;
        push_node(text, step.after.as_ref())?;
    }
    drop(steps);
    Ok(())
}

/// What is logged.
fn push_taken(alloc: Global, text: &mut String, sides: &Sides) -> Result<(), Fail>
    requires { AreSides sides.now }
{
    text.push_str(" >")?;
    let Ok(effects) = taken(alloc, sides) else {
        text.push_str(" !")?;
        return Ok(());
    };
    for effect in effects.as_slice() {
        push_effect(text, effect)?;
    }
    drop(effects);
    Ok(())
}

/// What the three sides come to: the conflicts, or the merged rows and the steps; and what is logged.
fn came(alloc: Global, sides: &Sides) -> Result<String, Fail>
    requires { AreSides sides.now }
{
    let mut text = String::new(alloc);
    let both = conflicts(alloc, sides)?;
    for path in both.as_slice() {
        text.push_str("!")?;
        text.push_str(str::from_utf8(path.text()?.bytes()).unwrap_or("?"))?;
    }
    let are_apart = both.len() == 0;
    drop(both);
    if are_apart {
        push_laying(alloc, &mut text, sides)?;
    }
    push_taken(alloc, &mut text, sides)?;
    Ok(text)
}

/// Three sides, where nothing stands that has no row.
fn sides_of(alloc: Global, laid: &str, here: &str, logged: &str) -> Result<Sides, Fail>
    ensures { IfOk result AreSides }
{
    Ok(Sides {
        laid: rows(alloc, laid)?,
        here: rows(alloc, here)?,
        logged: rows(alloc, logged)?,
        beside: Paths::new(alloc),
    })
}

#[test]
fn sides_are_merged(rt: HostRuntime) -> Result<(), Fail> {
    let cases = [
        ("a=1", "a=1", "a=2", "a=2 | a=1=2 > !"),
        ("a=1", "a=2", "a=1", "a=2 | > a="),
        ("a=1", "a=x", "a=1", "a=x | > a= a+"),
        ("a=1", "a=2", "a=3", "!a > !"),
        ("a=1", "", "a=2", "a=2 | a-=2 > !"),
        ("a=1", "a=2", "", "a=2 | > !"),
        ("a=1", "", "a=1", " | > a-"),
        ("a=1", "a=1", "", " | a=1- > !"),
        ("", "a=1", "a=1", "a=1 | > !"),
        ("", "a=1", "b=1", "a=1 b=1 | b-=1 > !"),
        ("d/ d/a=1", "d/ d/a=1 d/b=2", "", "d/ d/b=2 | d/a=1- > !"),
        (
            "d/ d/a=1",
            "",
            "d/ d/a=1 d/b=2",
            "d/ d/b=2 | d-/ d/b-=2 > !",
        ),
        ("d/ d/a=1", "d/ d/a=1 d/b=2", "d=3", "!d > !"),
        ("d/ d/a=1", "d=3", "d/ d/a=1 d/b=2", "!d > !"),
        ("d/ d/a=1", "d/ d/a=1", "d=3", "d=3 | d/a=1- d/- d-=3 > !"),
    ];
    for case in &cases {
        let sides = sides_of(rt.alloc(), case.0, case.1, case.2)?;
        let text = came(rt.alloc(), &sides)?;
        drop(sides);
        assert!(rt; text.as_str() == case.3);
    }
    Ok(())
}
