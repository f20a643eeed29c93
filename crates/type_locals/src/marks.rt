//! Numbers that are marked.
ghost use Rattle.std.specs.Prelude.{◌≡◌, ◌||◌, ◌==◌, ◌≤◌, ◌<◌, ℕ, true, length, set, IfOk, OnOk};
ghost use Rattle.c_typing.specs.Numbering.{is_in};
ghost use Rattle.type_locals.specs.inner.Marking.{marked};

use std::alloc::{AllocError, Global};

/// A mark for each number up to the greatest that has one.
#[derive(Drop)]
pub struct Marks {
    pub table: Vec<bool>,
}

impl Marks {
    /// Marks these numbers.
    pub fn of(alloc: Global, numbers: &[u32]) -> Result<Marks, AllocError>
        ensures { IfOk result (λ marks. (k : ℕ) → is_in k (marked marks) ≡ is_in k numbers.now) }
    {
        let mut marks = Marks {
            table: Vec::new(alloc),
        };
        'numbers: for n in numbers {
            marks.add(*n)?;
        }
        Ok(marks)
    }

    // Marks a number.
    fn add(&mut self, n: u32) -> Result<(), AllocError>
        ensures { OnOk result ((k : ℕ) → is_in k (marked self.new) ≡ (k == n || is_in k (marked self.old))) }
    {
        let place = n as usize;
        self.grow(place + 1)?;
        self.set(place);
        Ok(())
    }

    // Sets a mark that is there.
    fn set(&mut self, place: usize)
        requires { place < length self.old.table.items }
        ensures { self.new.table.items ≡ set self.old.table.items place true }
    {
        self.table[place] = true;
    }

    // Makes room for so many marks.
    fn grow(&mut self, count: usize) -> Result<(), AllocError>
        ensures room { OnOk result (count ≤ length self.new.table.items) }
        ensures same { OnOk result ((k : ℕ) → is_in k (marked self.new) ≡ is_in k (marked self.old)) }
    {
        if self.table.len() < count {
            self.table.resize(count, false)?;
        }
        Ok(())
    }

    /// Whether a number is marked.
    pub fn has(&self, n: u32) -> bool
        ensures { result ≡ is_in n (marked self.now) }
    {
        match self.table.get(n as usize) {
            Some(mark) => *mark,
            None => false,
        }
    }
}
