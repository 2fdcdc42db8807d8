//! Rows that a program cannot be given, and what is odd in a folder that it left.

use crate::tests::{content, job, job_on, outcome_of, ran_job, remove_work};
use cmd_capture::{JobRow, JobRows};
use std::rt::HostRuntime;
use std::test::Fail;
use vol_tree::{Node, Path};
use work_area::{RowsFault, rows_of};

fn push(rt: &HostRuntime, rows: &mut JobRows, path: &[u8], node: Node) -> Result<(), Fail> {
    let path = Path::read(rt.alloc(), path)?;
    rows.push(JobRow { path, node })?;
    Ok(())
}

/// A folder `a` with a file, and beside it a folder, each of the last two under a name that is no text.
fn odd_rows(rt: &HostRuntime) -> Result<JobRows, Fail> {
    let mut rows = JobRows::new(rt.alloc());
    push(rt, &mut rows, b"a", Node::Folder)?;
    push(rt, &mut rows, b"a/\xff1", Node::file(content(rt, "old")?))?;
    push(rt, &mut rows, b"\xff2", Node::Folder)?;
    push(rt, &mut rows, b"\xff2/b", Node::file(content(rt, "b")?))?;
    Ok(rows)
}

/// What came of the script on these rows.
fn ran_on_odd(rt: &HostRuntime, work: &str, script: &str) -> Result<String, Fail> {
    let job = job_on(rt, script, odd_rows(rt)?)?;
    let text = ran_job(rt, work, &job, None);
    drop(job);
    text
}

/// The program does not see them. By their texts `a.d` would stand before what is in `a`.
#[test]
fn rows_that_are_no_text_are_told_back_in_path_order(rt: HostRuntime) -> Result<(), Fail> {
    let script = ": > a/n; find . | sort | tr '\\n' , > a/n; mkdir a.d; : > z";
    let text = ran_on_odd(&rt, "work_no_text", script)?;
    let wanted = "0 a/ a/n=.,./a,./a/n, a/\u{fffd}1=old a.d/ z= \u{fffd}2/ \u{fffd}2/b=b";
    assert!(rt; text.as_str() == wanted);
    Ok(())
}

/// Its folder is gone, or a file stands there. A folder that was made anew is as good.
#[test]
fn a_row_that_cannot_be_told_back_is_a_fault(rt: HostRuntime) -> Result<(), Fail> {
    for script in ["rm -r a", "rm -r a; : > a"] {
        let text = ran_on_odd(&rt, "work_gone", script)?;
        assert!(rt; text.as_str() == "the run failed, 1");
    }
    let text = ran_on_odd(&rt, "work_gone", "rm -r a; mkdir a")?;
    assert!(rt; text.as_str() == "0 a/ a/\u{fffd}1=old \u{fffd}2/ \u{fffd}2/b=b");
    Ok(())
}

/// The path of the file has 33 names, and so its row is none of a tree. A folder there is a fault.
#[test]
fn a_file_below_32_folders_is_odd(rt: HostRuntime) -> Result<(), Fail> {
    let script = "rm -r a; p=.; for i in $(seq 32); do p=$p/a; done; mkdir -p $p; : > $p/f";
    let job = job(&rt, "/bin/sh", "", script)?;
    let ran = outcome_of(&rt, "work_deep", &job);
    drop(job);
    let outcome = ran?;
    let rows = outcome.rows.len();
    let read = rows_of(rt.alloc(), &outcome.rows);
    drop(outcome);
    let odd = match read {
        Ok(rows) => {
            drop(rows);
            None
        }
        Err(odd) => Some(odd),
    };
    assert!(rt; rows == 33);
    assert!(rt; odd == Some(RowsFault::OddTree(32)));
    remove_work(&rt, "work_deep")
}
