//! A row of a table of tests: its files, and the calls of `byzlab` that are made with them.
use crate::item::{Item, ItemKey};
use std::alloc::{AllocError, Global};

/// A row of a table of tests: files, and calls of `byzlab` that are made with them.
#[derive(Drop)]
pub struct WorkedRow {
    /// What the row shows, in words.
    pub name: String,
    /// The items that describe the row's files, before its first call.
    pub files: Vec<Item>,
    /// The row's calls, in the order in which they are made.
    pub calls: Vec<ProgramCall>,
}

/// A call of `byzlab` in a row, as a list of items: its words, how it is made, and what its answer must be.
#[derive(Drop)]
pub struct ProgramCall {
    pub items: Vec<Item>,
}

impl WorkedRow {
    /// Creates a row with this name, which has no files and no calls yet.
    pub fn named(alloc: Global, name: &str) -> Result<WorkedRow, AllocError> {
        Ok(WorkedRow {
            name: String::from_str(alloc, name)?,
            files: Vec::new(alloc),
            calls: Vec::new(alloc),
        })
    }

    /// Adds an item to the row. An item with the key `words` begins a new call. Any other item belongs to the call
    /// before it or, if there is none, to the files.
    pub fn take_in(&mut self, alloc: Global, item: Item) -> Result<(), AllocError> {
        if item.key == ItemKey::Words {
            let mut items = Vec::new(alloc);
            items.push(item)?;
            self.calls.push(ProgramCall { items })?;
            return Ok(());
        }
        match self.calls.last_mut() {
            Some(call) => call.items.push(item)?,
            None => self.files.push(item)?,
        }
        Ok(())
    }

    /// Returns the item that was added last, or `None` if the row has no items.
    pub fn last_item(&mut self) -> Option<&mut Item> {
        match self.calls.last_mut() {
            Some(call) => call.items.last_mut(),
            None => self.files.last_mut(),
        }
    }
}

impl ProgramCall {
    /// Returns the value of the first item with this key, or `None` if the call has no such item.
    pub fn value(&self, key: ItemKey) -> Option<&str> {
        for item in &self.items {
            if item.key == key {
                return Some(item.value.as_str());
            }
        }
        None
    }

    /// Checks whether the call has an item with this key.
    pub fn has(&self, key: ItemKey) -> bool {
        self.value(key).is_some()
    }
}
