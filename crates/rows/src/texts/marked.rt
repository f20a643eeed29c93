//! Texts in which a token is marked.
use std::alloc::{AllocError, Global};

/// A text, and the place in it that was marked last.
#[derive(Drop)]
pub struct Marked {
    pub text: String,
    pub place: Option<usize>,
}

impl Marked {
    /// A text of which nothing stands yet.
    pub(crate) fn new(alloc: Global) -> Marked {
        Marked {
            text: String::new(alloc),
            place: None,
        }
    }

    /// Puts a part behind the text, in which `@` marks the place of what follows, and `¶` stands for the end of a line.
    pub(crate) fn append(&mut self, part: &str) -> Result<(), AllocError> {
        for (index, piece) in part.split('@').enumerate() {
            if index > 0 {
                self.place = Some(self.text.len());
            }
            for (line, words) in piece.split('¶').enumerate() {
                if line > 0 {
                    self.text.push('\n')?;
                }
                self.text.push_str(words)?;
            }
        }
        Ok(())
    }

    /// Puts a row behind the text: what stands between two backticks so many times, with the number of each time for `$`.
    pub(crate) fn append_row(&mut self, row: &str, times: u32) -> Result<(), AllocError> {
        for (index, part) in row.split('`').enumerate() {
            if index % 2 == 0 {
                self.append(part)?;
            } else {
                self.append_times(part, times)?;
            }
        }
        Ok(())
    }

    fn append_times(&mut self, part: &str, times: u32) -> Result<(), AllocError> {
        for number in 0..times {
            match part.split_once('$') {
                Some((before, behind)) => {
                    self.append(before)?;
                    write!(self.text, "{number:04}")?;
                    self.append(behind)?;
                }
                None => self.append(part)?,
            }
        }
        Ok(())
    }
}
