// Lists of which each is kept once.

use crate::bars::Segment;
use std::alloc::{AllocError, Global};
use std::collections::BTreeMap;

/// Bars, each with a number.
#[derive(Drop)]
pub struct Bars {
    pub list: Vec<Vec<Segment>>,
    numbers: BTreeMap<Vec<Segment>, usize>,
}

impl Bars {
    pub fn new(alloc: Global) -> Bars {
        Bars {
            list: Vec::new(alloc),
            numbers: BTreeMap::new(alloc),
        }
    }

    /// The number of a bar.
    pub fn number(&mut self, alloc: Global, bar: Vec<Segment>) -> Result<usize, AllocError> {
        if let Some(number) = self.numbers.get(bar.as_slice()) {
            return Ok(*number);
        }
        let number = self.list.len();
        self.list.push(Vec::from_slice(alloc, &bar)?)?;
        self.numbers.insert(bar, number)?;
        Ok(number)
    }
}

/// States, each with a number: for each array and side the number of a bar.
#[derive(Drop)]
pub struct States {
    pub list: Vec<Vec<usize>>,
    numbers: BTreeMap<Vec<usize>, usize>,
}

impl States {
    pub fn new(alloc: Global) -> States {
        States {
            list: Vec::new(alloc),
            numbers: BTreeMap::new(alloc),
        }
    }

    /// The number of a state.
    pub fn number(&mut self, alloc: Global, state: &[usize]) -> Result<usize, AllocError> {
        if let Some(number) = self.numbers.get(state) {
            return Ok(*number);
        }
        let number = self.list.len();
        self.list.push(Vec::from_slice(alloc, state)?)?;
        self.numbers.insert(Vec::from_slice(alloc, state)?, number)?;
        Ok(number)
    }
}
