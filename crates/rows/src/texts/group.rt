//! Groups of rows that are judged in one way.
use crate::texts::judging::{Stage, refusal_of};
use crate::texts::marked::Marked;
use std::io;

/// How the rows under a heading are judged, and of how many texts what the table tells is so.
#[derive(Clone, Copy)]
pub struct Group<'a> {
    heading: &'a str,
    stage: Stage,
    reason: &'a str,
    before: &'a str,
    behind: &'a str,
    texts: u32,
}

impl<'a> Group<'a> {
    /// A group with nothing set: its texts go through the types too, and stand alone.
    pub(crate) fn new(heading: &'a str) -> Group<'a> {
        Group {
            heading,
            stage: Stage::Types,
            reason: "",
            before: "",
            behind: "",
            texts: 0,
        }
    }

    /// Takes a setting: `refused REASON`, ``between BEFORE`BEHIND``, or else `grammar alone`.
    pub(crate) fn set(&mut self, setting: &'a str) {
        if let Some(reason) = setting.strip_prefix("refused ") {
            self.reason = reason;
        } else if let Some((before, behind)) = setting.split_once('`') {
            self.before = before.strip_prefix("between ").unwrap_or(before);
            self.behind = behind;
        } else {
            self.stage = Stage::Grammar;
        }
    }

    /// Prints of how many texts it is so.
    pub(crate) fn report(&self, rt: &HostRuntime) -> io::Result<()> {
        println!(rt; "{}: {} texts as told", self.heading, self.texts)
    }

    /// Judges a row: its text once, or as often as its first words tell.
    pub(crate) fn judge_row(&mut self, rt: &HostRuntime, row: &str) -> io::Result<()> {
        if let Some(text) = row.strip_prefix("each front: ") {
            self.judge_each(rt, text, "@", false)
        } else if let Some(text) = row.strip_prefix("each gap: ") {
            self.judge_each(rt, text, " @goto", true)
        } else if let Some((count, text)) = row.split_once(" times: ") {
            self.judge(rt, text, count.parse::<u32>().unwrap_or(0), true)
        } else if let Some((count, text)) = row.split_once(" at most: ") {
            let most = count.parse::<u32>().unwrap_or(0);
            self.judge(rt, text, most.saturating_sub(1), false)?;
            self.judge(rt, text, most, false)?;
            self.judge(rt, text, most.saturating_add(1), true)
        } else {
            self.judge(rt, row, 1, true)
        }
    }

    /// Judges a text with its repeated parts so many times, whose mark tells something or doesn't.
    pub(crate) fn judge(
        &mut self,
        rt: &HostRuntime,
        row: &str,
        times: u32,
        is_marked: bool,
    ) -> io::Result<()> {
        let mut text = Marked::new(rt.alloc());
        text.append(self.before)?;
        text.append_row(row, times)?;
        text.append(self.behind)?;
        if !is_marked {
            text.place = None;
        }
        self.compare(rt, row, &text)
    }

    // Judges a text that has a space before each token but its first, as it ends there with a word, or goes on behind the word.
    fn judge_each(
        &mut self,
        rt: &HostRuntime,
        row: &str,
        word: &str,
        goes_on: bool,
    ) -> io::Result<()> {
        for (place, _) in row.match_indices(' ') {
            let mut text = Marked::new(rt.alloc());
            text.append(row.get(..place).unwrap_or(""))?;
            text.append(word)?;
            if goes_on {
                text.append(row.get(place..).unwrap_or(""))?;
            }
            self.compare(rt, row, &text)?;
        }
        Ok(())
    }

    // Counts a text that is refused at its mark for the reason, or accepted without one, and else shows what comes of it.
    fn compare(&mut self, rt: &HostRuntime, row: &str, text: &Marked) -> io::Result<()> {
        let found = refusal_of(rt.alloc(), &text.text, self.stage)?;
        let is_so = match (found, text.place) {
            (None, None) => true,
            (Some(refusal), Some(place)) => {
                let reason = format!(in rt.alloc(); "{:?}", refusal.kind)?;
                refusal.place as usize == place && reason.as_str() == self.reason
            }
            _ => false,
        };
        if is_so {
            self.texts = self.texts.saturating_add(1);
            return Ok(());
        }
        println!(rt; "{row}: {found:?}")
    }
}
