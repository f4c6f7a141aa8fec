//! A run of the corpus.

use crate::frames::Frames;
use std::alloc::{AllocError, Global};

/// A run, and what it writes.
#[derive(Drop)]
pub(crate) struct Row {
    pub(crate) name: String,
    /// It is done once, without a fault.
    pub(crate) is_once: bool,
    pub(crate) words: Vec<String>,
    /// The malformed line that ends it with status 2, counted from 1. Without one its status is 0.
    pub(crate) malformed: Option<u64>,
    pub(crate) script: Vec<u8>,
    pub(crate) text: Vec<u8>,
    /// Of each line of the script that has a line feed: where the next line begins, and how long the text is up to it.
    ends: Vec<(usize, usize)>,
    /// The length of the text up to each part of an answer.
    parts: Vec<usize>,
}

impl Row {
    pub(crate) fn new(alloc: Global, name: &str) -> Result<Row, AllocError> {
        Ok(Row {
            name: String::from_str(alloc, name)?,
            is_once: false,
            words: Vec::new(alloc),
            malformed: None,
            script: Vec::new(alloc),
            text: Vec::new(alloc),
            ends: Vec::new(alloc),
            parts: Vec::new(alloc),
        })
    }

    /// Adds a line of the corpus. Returns false if it is wrong.
    pub(crate) fn take(
        &mut self,
        alloc: Global,
        frames: &mut Frames,
        line: &str,
    ) -> Result<bool, AllocError> {
        if line == "once" {
            self.is_once = true;
        } else if let Some(words) = line.strip_prefix("words ") {
            for word in words.split(' ') {
                self.words.push(String::from_str(alloc, word)?)?;
            }
        } else if let Some(number) = line.strip_prefix("malformed ") {
            self.malformed = number.parse::<u64>().ok();
            return Ok(self.malformed.is_some());
        } else {
            return self.take_line(frames, line);
        }
        Ok(true)
    }

    /// Adds a line of the script or of the text. Returns false if it is neither.
    fn take_line(&mut self, frames: &mut Frames, line: &str) -> Result<bool, AllocError> {
        if let Some(line) = line.strip_prefix(">") {
            let is_right = frames.expand(line, &mut self.script)?;
            self.script.push(b'\n')?;
            self.ends.push((self.script.len(), self.text.len()))?;
            Ok(is_right)
        } else if let Some(line) = line.strip_prefix("|") {
            frames.expand(line, &mut self.script)
        } else if let Some(line) = line.strip_prefix("<") {
            self.take_text(frames, line)
        } else if let Some(line) = line.strip_prefix("+") {
            let is_right = self.take_text(frames, line)?;
            self.parts.push(self.text.len())?;
            Ok(is_right)
        } else {
            Ok(false)
        }
    }

    /// Adds a line of the text. Returns false if it is wrong.
    fn take_text(&mut self, frames: &mut Frames, line: &str) -> Result<bool, AllocError> {
        let is_right = frames.expand(line, &mut self.text)?;
        self.text.push(b'\n')?;
        self.end_text();
        Ok(is_right)
    }

    /// The text so far is that of the lines so far, if the last one has a line feed.
    fn end_text(&mut self) {
        let length = self.text.len();
        if self.script.last() == Some(&b'\n') {
            if let Some(end) = self.ends.last_mut() {
                end.1 = length;
            }
        }
    }

    /// Returns how many lines end within the first `length` bytes of the script, and the length of their text.
    pub(crate) fn answered(&self, length: usize) -> (u64, usize) {
        let mut lines = 0u64;
        let mut length_of_text = 0;
        for (script, text) in self.ends.iter() {
            if *script <= length {
                lines = lines.saturating_add(1);
                length_of_text = *text;
            }
        }
        (lines, length_of_text)
    }

    /// Returns true if this is the text of the first lines of the script, of none, some or all, or that with parts of the answer to the next line.
    pub(crate) fn is_of_first_lines(&self, text: &[u8]) -> bool {
        let is_end = text.is_empty()
            || text.len() == self.text.len()
            || self.ends.iter().any(|end| end.1 == text.len())
            || self.parts.iter().any(|end| *end == text.len());
        is_end && self.text.starts_with(text)
    }
}
