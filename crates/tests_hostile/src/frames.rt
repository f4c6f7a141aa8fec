//! The frames of the corpus, by their names.

use std::alloc::{AllocError, Global};

/// A frame in hexadecimal digits.
#[derive(Drop)]
struct Frame {
    name: String,
    digits: String,
    is_used: bool,
}

#[derive(Drop)]
pub(crate) struct Frames {
    frames: Vec<Frame>,
}

impl Frames {
    pub(crate) fn new(alloc: Global) -> Frames {
        Frames {
            frames: Vec::new(alloc),
        }
    }

    /// Adds a frame that has no digits yet. Returns false if the name is another frame's.
    pub(crate) fn define(&mut self, alloc: Global, name: &str) -> Result<bool, AllocError> {
        if self.frames.iter().any(|frame| frame.name.as_str() == name) {
            return Ok(false);
        }
        self.frames.push(Frame {
            name: String::from_str(alloc, name)?,
            digits: String::new(alloc),
            is_used: false,
        })?;
        Ok(true)
    }

    /// Adds digits to the newest frame. Returns false if the line doesn't begin with a space, or if there is no frame.
    pub(crate) fn extend(&mut self, line: &str) -> Result<bool, AllocError> {
        let (Some(digits), Some(frame)) = (line.strip_prefix(" "), self.frames.last_mut()) else {
            return Ok(false);
        };
        frame.digits.push_str(digits)?;
        Ok(true)
    }

    /// Adds the digits of the frame of this name to `bytes`. The frame is used then. Returns false if there is none.
    pub(crate) fn push(&mut self, name: &str, bytes: &mut Vec<u8>) -> Result<bool, AllocError> {
        for frame in self.frames.iter_mut() {
            if frame.name.as_str() == name {
                frame.is_used = true;
                bytes.extend_from_slice(frame.digits.as_bytes())?;
                return Ok(true);
            }
        }
        Ok(false)
    }

    /// Adds a line to `bytes`, with the digits of a frame in the place of `{NAME}`. Returns false if there is no frame of a name.
    pub(crate) fn expand(&mut self, line: &str, bytes: &mut Vec<u8>) -> Result<bool, AllocError> {
        let mut is_right = true;
        let mut pieces = line.split('{');
        bytes.extend_from_slice(pieces.next().unwrap_or("").as_bytes())?;
        for piece in pieces {
            let Some((name, behind)) = piece.split_once('}') else {
                return Ok(false);
            };
            is_right &= self.push(name, bytes)?;
            bytes.extend_from_slice(behind.as_bytes())?;
        }
        Ok(is_right)
    }

    /// Returns how many frames no line names.
    pub(crate) fn unused(&self) -> usize {
        self.frames.iter().filter(|frame| !frame.is_used).count()
    }
}
