//! Lists of numbers, by number.
use std::alloc::{AllocError, Global};

/// A list of numbers for each number below a count.
#[derive(Drop)]
pub struct Lists {
    items: Vec<Vec<usize>>,
}

impl Lists {
    /// As many empty lists.
    pub fn new(alloc: Global, count: usize) -> Result<Lists, AllocError> {
        let mut items = Vec::new(alloc);
        for _ in 0..count {
            items.push(Vec::new(alloc))?;
        }
        Ok(Lists { items })
    }

    /// How many numbers the list has.
    pub fn len_at(&self, at: usize) -> usize {
        match self.items.get(at) {
            Some(list) => list.len(),
            None => 0,
        }
    }

    /// Puts a number at the end of a list.
    pub fn push(&mut self, at: usize, number: usize) -> Result<(), AllocError> {
        if let Some(list) = self.items.get_mut(at) {
            list.push(number)?;
        }
        Ok(())
    }

    /// Empties a list, and answers what it had.
    pub fn take(&mut self, alloc: Global, at: usize) -> Vec<usize> {
        match self.items.get_mut(at) {
            Some(list) => std::mem::replace(list, Vec::new(alloc)),
            None => Vec::new(alloc),
        }
    }
}
