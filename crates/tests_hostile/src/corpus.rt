//! The corpus: frames, runs with what they write and how they end, and frames that are cut and changed.
//!
//! A line that begins with `frame` names a frame. The lines behind it begin with a space, and are its hexadecimal digits. In a line of a run `{NAME}`
//! is the digits of the frame of that name.
//!
//! A line that begins with `row` begins a run and names it. `words` are its words. Behind `>` is a line of its script, and behind `|` the last one if it
//! has no line feed. Behind `<` is a line that the run writes for the line before, and behind `+` one that it writes as a part of the answer, so that it is
//! written if the run is out of memory behind it. `malformed N` says that line N of the script, counted from 1, ends the run with status 2. `once` says
//! that the run is done once, without a fault.
//!
//! A line that begins with `change` names a frame that is cut and changed, and one that begins with `#` says nothing. Any other line is wrong, and so
//! are one that names a frame that there isn't, and one that defines a frame again.

use crate::frames::Frames;
use crate::row::Row;
use std::alloc::{AllocError, Global};

/// What the lines that don't begin with a word belong to.
#[derive(Clone, Copy)]
enum Part {
    Nothing,
    /// The newest frame.
    Frame,
    /// The newest run.
    Run,
}

#[derive(Drop)]
pub(crate) struct Corpus {
    frames: Frames,
    part: Part,
    pub(crate) rows: Vec<Row>,
    /// The digits of each frame that is cut and changed.
    pub(crate) changed: Vec<Vec<u8>>,
    /// The number of lines that are wrong.
    pub(crate) wrong: u64,
}

impl Corpus {
    fn new(alloc: Global) -> Corpus {
        Corpus {
            frames: Frames::new(alloc),
            part: Part::Nothing,
            rows: Vec::new(alloc),
            changed: Vec::new(alloc),
            wrong: 0,
        }
    }

    /// Reads a corpus.
    pub(crate) fn read(alloc: Global, text: &str) -> Result<Corpus, AllocError> {
        let mut corpus = Corpus::new(alloc);
        for line in text.lines() {
            let is_empty = line.is_empty() || line.starts_with("#");
            if !is_empty && !corpus.take(alloc, line)? {
                corpus.wrong = corpus.wrong.saturating_add(1);
            }
        }
        Ok(corpus)
    }

    /// Adds a line. Returns false if it is wrong.
    fn take(&mut self, alloc: Global, line: &str) -> Result<bool, AllocError> {
        if let Some(name) = line.strip_prefix("frame ") {
            let is_new = self.frames.define(alloc, name)?;
            self.part = if is_new { Part::Frame } else { Part::Nothing };
            return Ok(is_new);
        }
        if let Some(name) = line.strip_prefix("row ") {
            self.part = Part::Run;
            self.rows.push(Row::new(alloc, name)?)?;
            return Ok(true);
        }
        if let Some(name) = line.strip_prefix("change ") {
            self.part = Part::Nothing;
            let mut digits = Vec::new(alloc);
            let is_right = self.frames.push(name, &mut digits)?;
            self.changed.push(digits)?;
            return Ok(is_right);
        }
        match (self.part, self.rows.last_mut()) {
            (Part::Frame, _) => self.frames.extend(line),
            (Part::Run, Some(row)) => row.take(alloc, &mut self.frames, line),
            _ => Ok(false),
        }
    }

    /// Returns how many frames no line names.
    pub(crate) fn unused(&self) -> usize {
        self.frames.unused()
    }
}
