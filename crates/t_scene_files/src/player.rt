// A file of scenes, line by line.

use crate::blocks::{Text, add_line, first_word, has_name, sign_of};
use crate::fault::Fault;
use crate::report::Report;
use crate::stage::{Line, Stage};
use std::alloc::{AllocError, Global};

/// What is wrong with a block that stands where none may.
const NO_BLOCK: Fault = Fault::Line("no block stands behind this");

/// A line whose block is being read.
#[derive(Clone, Copy)]
struct Head<'a> {
    line: &'a str,
    /// Its number, counted from 1.
    number: u32,
    has_block: bool,
}

/// What was read of a file: the texts that have names, and the block behind the last line.
#[derive(Drop)]
struct Player {
    alloc: Global,
    texts: Vec<Text>,
    block: Vec<u8>,
}

/// Plays each scene of a file's text on the stage, and adds what is wrong to the report.
pub(crate) fn play<S: Stage>(
    alloc: Global,
    stage: &mut S,
    report: &mut Report,
    text: &str,
) -> Result<(), AllocError> {
    let mut player = Player {
        alloc,
        texts: Vec::new(alloc),
        block: Vec::new(alloc),
    };
    let played = player.play(stage, report, text);
    drop(player);
    played
}

/// Whether a line says nothing.
fn is_remark(line: &str) -> bool {
    line.is_empty() || line.starts_with('#')
}

impl Player {
    fn play<S: Stage>(
        &mut self,
        stage: &mut S,
        report: &mut Report,
        text: &str,
    ) -> Result<(), AllocError> {
        let mut head = head_at("", 0);
        let mut number: u32 = 0;
        for line in text.split('\n') {
            number = number.saturating_add(1);
            if !is_remark(line) {
                head = self.read(stage, report, head, head_at(line, number))?;
            }
        }
        self.follow_last(stage, report, head)?;
        end_scene(stage, report)?;
        end_file(report, &self.texts)
    }

    /// Reads a line: one of the block behind the last one, or a new one, before which the last one is followed. It gives the line whose
    /// block is read then.
    fn read<'a, S: Stage>(
        &mut self,
        stage: &mut S,
        report: &mut Report,
        last: Head<'a>,
        next: Head<'a>,
    ) -> Result<Head<'a>, AllocError> {
        let (first, rest) = first_word(next.line);
        if let Some(sign) = sign_of(first) {
            let added = add_line(self.alloc, &mut self.block, &mut self.texts, sign, rest);
            report.note(next.number, added)?;
            return Ok(Head {
                has_block: true,
                ..last
            });
        }
        self.follow_last(stage, report, last)?;
        Ok(next)
    }

    /// Follows the line whose block ended.
    fn follow_last<S: Stage>(
        &mut self,
        stage: &mut S,
        report: &mut Report,
        head: Head<'_>,
    ) -> Result<(), AllocError> {
        report.line = head.number;
        let (first, rest) = first_word(head.line);
        let done = match first {
            "" => no_block(head, Fault::Line("nothing begins this block")),
            "let" => self.define(head, rest),
            "scene" => begin(stage, report, head, rest),
            _ => follow(self.alloc, stage, report, head, &self.block),
        };
        self.block.clear();
        report.note(head.number, done)
    }

    /// From here on the name stands for the block.
    fn define(&mut self, head: Head<'_>, name: &str) -> Result<(), Fault> {
        if !head.has_block {
            return Err(Fault::Line("a block is wanted"));
        }
        if !is_name(name) {
            return Err(Fault::Line("a name is one word"));
        }
        if has_name(&self.texts, name) {
            return Err(Fault::Line("another text has this name"));
        }
        let text = Text::new(self.alloc, name, &self.block, head.number)?;
        Ok(self.texts.push(text)?)
    }
}

/// A line with no block yet.
fn head_at(line: &str, number: u32) -> Head<'_> {
    Head {
        line,
        number,
        has_block: false,
    }
}

/// Whether this is one word.
fn is_name(name: &str) -> bool {
    !name.is_empty() && !name.contains(' ')
}

/// That no block stands behind the line.
fn no_block(head: Head<'_>, fault: Fault) -> Result<(), Fault> {
    if head.has_block { Err(fault) } else { Ok(()) }
}

/// Ends the scene that is played, and begins another one.
fn begin<S: Stage>(
    stage: &mut S,
    report: &mut Report,
    head: Head<'_>,
    name: &str,
) -> Result<(), Fault> {
    end_scene(stage, report)?;
    report.begin_scene(name)?;
    stage.begin();
    if !is_name(name) {
        return Err(Fault::Line("a name is one word"));
    }
    no_block(head, NO_BLOCK)
}

/// Has the stage follow a line of a scene.
fn follow<S: Stage>(
    alloc: Global,
    stage: &mut S,
    report: &mut Report,
    head: Head<'_>,
    block: &[u8],
) -> Result<(), Fault> {
    if report.scene.is_empty() {
        return Err(Fault::Line("no scene has begun"));
    }
    let words: Vec<&str> = head.line.split(' ').collect(alloc)?;
    let done = follow_words(stage, report, head, &words, block);
    drop(words);
    done
}

fn follow_words<S: Stage>(
    stage: &mut S,
    report: &mut Report,
    head: Head<'_>,
    words: &[&str],
    block: &[u8],
) -> Result<(), Fault> {
    if head.has_block && !stage.takes_block(words) {
        return Err(NO_BLOCK);
    }
    let (first, rest) = first_word(head.line);
    let line = Line {
        words,
        first,
        rest,
        block,
    };
    stage.follow(report, line)
}

/// In a scene something is looked at, all that was answered is, and all that was prepared is met.
fn end_scene<S: Stage>(stage: &mut S, report: &mut Report) -> Result<(), AllocError> {
    if report.scene.is_empty() {
        return Ok(());
    }
    if !stage.is_looked_at() {
        return report.tell("the last answer is not looked at");
    }
    if !stage.is_met() {
        return report.tell("nothing meets what is prepared");
    }
    if report.looks == 0 {
        return report.tell("nothing is looked at");
    }
    Ok(())
}

/// A file has a scene, and uses each text that it gives a name.
fn end_file(report: &mut Report, texts: &[Text]) -> Result<(), AllocError> {
    if report.scenes == 0 {
        report.tell("the file has no scene")?;
    }
    report.scene.clear();
    for text in texts {
        if !text.is_used {
            report.line = text.line;
            report.tell("nothing uses this text")?;
        }
    }
    Ok(())
}
