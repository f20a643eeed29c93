//! Rows: a text, and the listing of its tree as it was worked out.
use crate::compiled::listing::listing;
use std::alloc::{AllocError, Global};
use std::io;

/// A text and what is told of it.
#[derive(Drop)]
pub struct Row<'a> {
    heading: &'a str,
    pub text: &'a str,
    told: String,
}

impl<'a> Row<'a> {
    /// A row of which nothing stands yet but its heading.
    pub(crate) fn new(alloc: Global, heading: &'a str) -> Row<'a> {
        Row {
            heading,
            text: "",
            told: String::new(alloc),
        }
    }

    /// Puts a line behind the listing.
    pub(crate) fn tell(&mut self, line: &str) -> Result<(), AllocError> {
        self.told.push_str(line)?;
        self.told.push('\n')
    }

    /// Prints that the text's tree is as told, or else the tree's own listing.
    pub(crate) fn report(&self, rt: &HostRuntime) -> io::Result<()> {
        if self.heading.is_empty() {
            return Ok(());
        }
        let found = listing(rt.alloc(), self.text)?;
        if found.as_str() == self.told.as_str() {
            println!(rt; "{}: as told", self.heading)
        } else {
            println!(rt; "{}:\n{found}", self.heading)
        }
    }
}
