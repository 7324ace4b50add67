//! Programs of the table.

use code_gen::compile;
use plain_values::{Sequence, Shared};
use regent_reader::read;
use std::alloc::{AllocError, Global};
use task_code::{Code, Job};
use type_check::{Accepted, check};

/// How many turns each task instance has.
const TURNS: u64 = 1_000;

/// A program, with its name and its inputs.
#[derive(Drop)]
pub struct Row {
    name: String,
    inputs: Vec<i64>,
    text: String,
}

/// The numbers of a line.
fn numbers_of(alloc: Global, words: &str) -> Result<Vec<i64>, AllocError> {
    let mut numbers = Vec::new(alloc);
    for word in words.split_whitespace() {
        numbers.push(word.parse::<i64>().unwrap_or(0))?;
    }
    Ok(numbers)
}

impl Row {
    /// A program without lines that takes these numbers.
    pub fn new(alloc: Global, name: &str, numbers: &str) -> Result<Row, AllocError> {
        Ok(Row {
            name: String::from_str(alloc, name)?,
            inputs: numbers_of(alloc, numbers)?,
            text: String::new(alloc),
        })
    }

    /// Its name.
    pub fn name(&self) -> &str {
        self.name.as_str()
    }

    /// Adds a line after those that it has.
    pub fn add_line(&mut self, line: &str) -> Result<(), AllocError> {
        self.text.push_str(line)?;
        self.text.push('\n')
    }

    /// The program; none where the text is refused.
    fn accepted(&self, alloc: Global) -> Option<Accepted> {
        match read(alloc, self.text.as_bytes()) {
            Ok(program) => check(alloc, program).ok(),
            Err(_) => None,
        }
    }

    /// A job of this code.
    fn job_of(
        &self,
        alloc: Global,
        code: Result<Code, AllocError>,
    ) -> Result<Option<Job>, AllocError> {
        Ok(Some(Job {
            code: Shared::new(alloc, code?)?,
            inputs: Sequence::from_slice(alloc, self.inputs.as_slice())?,
            turns: TURNS,
        }))
    }

    /// Its job; none where the text is refused.
    pub fn job(&self, alloc: Global) -> Result<Option<Job>, AllocError> {
        match self.accepted(alloc) {
            Some(accepted) => self.job_of(alloc, compile(alloc, &accepted)),
            None => Ok(None),
        }
    }
}
