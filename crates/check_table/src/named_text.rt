//! A text with its name in the table and the words of its call.

ghost use Rattle.std.specs.Prelude.{◌≡◌, ◌++◌, [], ◌∷◌, IfOk, OnOk, string_bytes};

use regent_run::regent_run;
use run_io::{MemorySink, MemorySource};
use run_journal::{JournalFault, journal_read, journal_text};
use std::alloc::{AllocError, Global};
use std::sync::Wait;
use std::thread::Threads;
use worker_gate::OpenGate;

/// The most bytes that a call writes to each sink.
const ROOM: usize = 2_000;

/// A text, its name, and the words of the call that it is given to.
#[derive(Drop)]
pub struct NamedText {
    name: String,
    words: Vec<String>,
    text: String,
}

/// The words of a line, behind the program's name.
fn words_of(alloc: Global, line: &str) -> Result<Vec<String>, AllocError> {
    let mut words = Vec::new(alloc);
    words.push(String::from_str(alloc, "regent")?)?;
    for word in line.split_whitespace() {
        words.push(String::from_str(alloc, word)?)?;
    }
    Ok(words)
}

fn sink(alloc: Global) -> Result<MemorySink, AllocError> {
    MemorySink::new(alloc, ROOM, ROOM, Vec::new(alloc))
}

/// The status, the output and the error output, each in its place.
fn told(alloc: Global, status: u8, out: &[u8], err: &str) -> Result<String, AllocError> {
    let out = str::from_utf8(out).unwrap_or("no text");
    format!(in alloc; "{status} {out}{err}")
}

/// What a call wrote to the error output, where each trace there is read back; else the word of one that isn't.
fn checked(alloc: Global, is_traced: bool, err: &[u8]) -> Result<&str, AllocError> {
    let err = str::from_utf8(err).unwrap_or("no text");
    let (trace, _) = err.split_once("fault: ").unwrap_or((err, ""));
    if is_traced && !is_read_back(alloc, trace)? {
        return Ok("no journal");
    }
    Ok(err)
}

/// Whether a trace is read as a journal whose text it is, where workers made the run.
fn is_read_back(alloc: Global, trace: &str) -> Result<bool, AllocError> {
    match journal_read(alloc, trace.as_bytes()) {
        Ok(entries) => {
            let text = journal_text(alloc, entries.as_slice())?;
            Ok(text.as_slice() == trace.as_bytes())
        }
        Err(JournalFault::BadLine { .. }) => Ok(trace == "in order\n"),
        Err(JournalFault::Memory(failed)) => Err(failed),
    }
}

impl NamedText {
    /// A text without lines, for a call with the words of this line.
    pub fn new(alloc: Global, name: &str, words: &str) -> Result<NamedText, AllocError>
        ensures name { IfOk result (λ made. string_bytes made.name ≡ name.now) }
        ensures empty { IfOk result (λ made. string_bytes made.text ≡ []) }
    {
        Ok(NamedText {
            name: String::from_str(alloc, name)?,
            words: words_of(alloc, words)?,
            text: String::new(alloc),
        })
    }

    /// Its name.
    pub fn name(&self) -> &str
        ensures { result.now ≡ string_bytes self.now.name }
    {
        self.name.as_str()
    }

    /// Adds a line after those that it has, with a line feed.
    pub fn add_line(&mut self, line: &str) -> Result<(), AllocError>
        ensures name { self.new.name ≡ self.old.name }
        ensures words { self.new.words ≡ self.old.words }
        ensures added { OnOk result (string_bytes self.new.text ≡ string_bytes self.old.text ++ (line.now ++ 10 ∷ [])) }
    {
        self.text.push_str(line)?;
        self.text.push('\n')
    }

    /// What the call with the text writes: its status, its output, and then its error output. Where it is run by as many
    /// workers as there are by default, and other numbers of them tell something else, that is told instead.
    pub fn told<R: Threads + Wait + Sync>(
        &self,
        rt: &R,
        alloc: Global,
    ) -> Result<String, AllocError> {
        let told = self.told_by(rt, alloc, &self.words)?;
        if self.is_run_by_default() {
            for workers in ["0", "1", "2", "64"] {
                let words = self.words_with(alloc, workers)?;
                if self.told_by(rt, alloc, &words)?.as_str() != told.as_str() {
                    return format!(in alloc; "{workers} workers tell something else");
                }
            }
        }
        Ok(told)
    }

    /// What the call with these words writes.
    fn told_by<R: Threads + Wait + Sync>(
        &self,
        rt: &R,
        alloc: Global,
        words: &Vec<String>,
    ) -> Result<String, AllocError> {
        let bytes = Vec::from_slice(alloc, self.text.as_bytes())?;
        let mut source = MemorySource::new(bytes, Vec::new(alloc));
        let mut out = sink(alloc)?;
        let mut err = sink(alloc)?;
        let status = regent_run(rt, alloc, words, &mut source, &mut out, &mut err, &OpenGate);
        let is_traced = status <= 1 && words.iter().any(|word| word.as_str() == "--trace");
        told(
            alloc,
            status,
            out.bytes(),
            checked(alloc, is_traced, err.bytes())?,
        )
    }

    /// Whether the words run a program, and name neither workers nor a trace, which differs by workers.
    fn is_run_by_default(&self) -> bool {
        let mut words = self.words.iter().map(|word| word.as_str());
        let command = words.nth(1);
        (command == Some("run") || command == Some("sample"))
            && !words.any(|word| word.starts_with("--workers") || word == "--trace")
    }

    /// The words, with so many workers named behind the command.
    fn words_with(&self, alloc: Global, workers: &str) -> Result<Vec<String>, AllocError> {
        let mut words = Vec::new(alloc);
        for (place, word) in self.words.iter().enumerate() {
            if place == 2 {
                words.push(String::from_str(alloc, "--workers")?)?;
                words.push(String::from_str(alloc, workers)?)?;
            }
            words.push(word.clone()?)?;
        }
        Ok(words)
    }
}
