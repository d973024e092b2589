//! The text of a case.

ghost use Rattle.std.specs.{Prelude.{◌≡◌, ◌^◌}, Result.{result_ok}};
ghost use Rattle.smp_frac.specs.Decimals.{number_below};

use crate::case::{Case, Wanted, has_name};
use crate::escapes::{printable, unescaped};
use crate::lines::Line;
use smp_frac::{Bytes, NoMemory, Text, number};
use std::alloc::{AllocError, AllocFailed, Global};
use std::fmt;

/// Why a text is no case.
#[derive(Debug, Drop)]
pub enum CaseFault {
    /// What is wrong in a line, counted from 1.
    Line { line: u64, wrong: Wrong },
    /// A part that each case has isn't there.
    Missing { part: &'static str },
    /// The name of the file has another end than `.txt`.
    Name,
    /// Memory ran out.
    NoMemory,
}

/// What is wrong in a line.
#[derive(Clone, Copy, Debug, PartialEq, Eq)]
pub enum Wrong {
    /// It has a byte that can't be printed.
    NotPrintable,
    /// It begins as no line of a case does.
    UnknownPart,
    /// It is content, and the part above it has none.
    Stray,
    /// It has an escape that isn't one.
    Escape,
    /// It has a word or a name that isn't UTF-8.
    NotText,
    /// It has no number, or one that is too large.
    NoNumber,
    /// Another line says this already, or something else of the same file.
    Repeated,
    /// Memory ran out.
    NoMemory,
}

impl fmt::Display for CaseFault {
    fn fmt<W: fmt::Write>(&self, f: &mut fmt::Formatter<W>) -> fmt::Result {
        match self {
            CaseFault::Line { line, wrong } => write!(f, "line {line}: {wrong}"),
            CaseFault::Missing { part } => write!(f, "no line '{part}'"),
            CaseFault::Name => write!(f, "its name doesn't end in .txt"),
            CaseFault::NoMemory => write!(f, "memory ran out"),
        }
    }
}

impl fmt::Display for Wrong {
    fn fmt<W: fmt::Write>(&self, f: &mut fmt::Formatter<W>) -> fmt::Result {
        match self {
            Wrong::NotPrintable => write!(f, "a byte that can't be printed"),
            Wrong::UnknownPart => write!(f, "no part of a case"),
            Wrong::Stray => write!(f, "content of no part"),
            Wrong::Escape => write!(f, "an escape that isn't one"),
            Wrong::NotText => write!(f, "a word or name that isn't UTF-8"),
            Wrong::NoNumber => write!(f, "no number, or too large a one"),
            Wrong::Repeated => write!(f, "said twice"),
            Wrong::NoMemory => write!(f, "memory ran out"),
        }
    }
}

impl From<AllocError> for CaseFault {
    fn from(_: AllocError) -> CaseFault {
        CaseFault::NoMemory
    }
}

impl From<AllocError> for Wrong {
    fn from(_: AllocError) -> Wrong {
        Wrong::NoMemory
    }
}

impl<T: Drop> From<AllocFailed<T>> for Wrong {
    fn from(_: AllocFailed<T>) -> Wrong {
        Wrong::NoMemory
    }
}

impl From<NoMemory> for Wrong {
    fn from(_: NoMemory) -> Wrong {
        Wrong::NoMemory
    }
}

/// Reads the text of a case.
pub fn read_case(alloc: Global, text: &[u8]) -> Result<Case, CaseFault> {
    let mut reader = CaseReader::new(alloc);
    let mut line = 0u64;
    for bytes in text.split(|byte| *byte == b'\n') {
        line = line.saturating_add(1);
        if let Err(wrong) = reader.read_line(bytes) {
            return Err(CaseFault::Line { line, wrong });
        }
    }
    reader.into_case()
}

// To which part the content of the next line belongs.
#[derive(Clone, Copy, PartialEq, Eq)]
enum Open {
    Nothing,
    File,
    WantedFile,
    WantedPut,
}

// A case of which some lines were read.
#[derive(Drop)]
struct CaseReader {
    alloc: Global,
    open: Open,
    words: Option<Vec<String>>,
    files: Vec<(Text, Bytes)>,
    failing_calls: Vec<u64>,
    failing_puts: Vec<u64>,
    code: Option<u8>,
    wanted_files: Vec<(Text, Option<Bytes>)>,
    put: Option<Bytes>,
}

impl CaseReader {
    fn new(alloc: Global) -> CaseReader {
        CaseReader {
            alloc,
            open: Open::Nothing,
            words: None,
            files: Vec::new(alloc),
            failing_calls: Vec::new(alloc),
            failing_puts: Vec::new(alloc),
            code: None,
            wanted_files: Vec::new(alloc),
            put: None,
        }
    }

    fn read_line(&mut self, line: &[u8]) -> Result<(), Wrong> {
        let text = printable(line).ok_or(Wrong::NotPrintable)?;
        match Line::of_text(text).ok_or(Wrong::UnknownPart)? {
            Line::Remark => Ok(()),
            Line::Content(content) => self.add_content(content),
            part => {
                self.open = Open::Nothing;
                self.add_part(part)
            }
        }
    }

    fn add_content(&mut self, content: &str) -> Result<(), Wrong> {
        let bytes = unescaped(self.alloc, content)?.ok_or(Wrong::Escape)?;
        let bytes = bytes.as_slice();
        match self.open {
            Open::File => match self.files.last_mut() {
                Some((_, content)) => Ok(content.push_all(bytes)?),
                None => Err(Wrong::Stray),
            },
            Open::WantedFile => match self.wanted_files.last_mut() {
                Some((_, Some(content))) => Ok(content.push_all(bytes)?),
                _ => Err(Wrong::Stray),
            },
            Open::WantedPut => match &mut self.put {
                Some(content) => Ok(content.push_all(bytes)?),
                None => Err(Wrong::Stray),
            },
            Open::Nothing => Err(Wrong::Stray),
        }
    }

    fn add_part(&mut self, part: Line<'_>) -> Result<(), Wrong> {
        match part {
            Line::Remark | Line::Content(_) => Ok(()),
            Line::Words(words) => self.set_words(words),
            Line::File(name) => self.add_file(name),
            Line::FailingCall(text) => Ok(self.failing_calls.push(count(text)?)?),
            Line::FailingPut(text) => Ok(self.failing_puts.push(count(text)?)?),
            Line::WantedCode(text) => self.set_code(text),
            Line::WantedFile(name) => {
                self.add_wanted_file(name, Some(Bytes::new(self.alloc)))?;
                self.open = Open::WantedFile;
                Ok(())
            }
            Line::WantedNoFile(name) => self.add_wanted_file(name, None),
            Line::WantedPut => self.open_put(),
        }
    }

    fn set_words(&mut self, words: Option<&str>) -> Result<(), Wrong> {
        if self.words.is_some() {
            return Err(Wrong::Repeated);
        }
        let mut list = Vec::new(self.alloc);
        if let Some(words) = words {
            for word in words.split(' ') {
                list.push(text_of(self.alloc, word)?)?;
            }
        }
        self.words = Some(list);
        Ok(())
    }

    fn add_file(&mut self, name: &str) -> Result<(), Wrong> {
        let name = Text::from_str(self.alloc, text_of(self.alloc, name)?.as_str())?;
        if has_name(self.files.as_slice(), name.as_str()) {
            return Err(Wrong::Repeated);
        }
        self.files.push((name, Bytes::new(self.alloc)))?;
        self.open = Open::File;
        Ok(())
    }

    fn add_wanted_file(&mut self, name: &str, content: Option<Bytes>) -> Result<(), Wrong> {
        let name = Text::from_str(self.alloc, text_of(self.alloc, name)?.as_str())?;
        if has_name(self.wanted_files.as_slice(), name.as_str()) {
            return Err(Wrong::Repeated);
        }
        self.wanted_files.push((name, content))?;
        Ok(())
    }

    fn set_code(&mut self, text: &str) -> Result<(), Wrong> {
        if self.code.is_some() {
            return Err(Wrong::Repeated);
        }
        self.code = Some(u8::try_from(count(text)?).map_err(|_| Wrong::NoNumber)?);
        Ok(())
    }

    fn open_put(&mut self) -> Result<(), Wrong> {
        if self.put.is_some() {
            return Err(Wrong::Repeated);
        }
        self.put = Some(Bytes::new(self.alloc));
        self.open = Open::WantedPut;
        Ok(())
    }

    // The whole case, where the parts are there that each case has.
    fn into_case(self) -> Result<Case, CaseFault> {
        let CaseReader {
            words,
            files,
            failing_calls,
            failing_puts,
            code,
            wanted_files,
            put,
            ..
        } = self;
        let Some(words) = words else {
            return Err(CaseFault::Missing { part: "words" });
        };
        let Some(code) = code else {
            return Err(CaseFault::Missing {
                part: "wanted code",
            });
        };
        let Some(put) = put else {
            return Err(CaseFault::Missing { part: "wanted put" });
        };
        let wanted = Wanted {
            code,
            files: wanted_files,
            put,
        };
        Ok(Case {
            words,
            files,
            failing_calls,
            failing_puts,
            wanted,
        })
    }
}

// The word or name that a text stands for.
fn text_of(alloc: Global, text: &str) -> Result<String, Wrong> {
    let bytes = unescaped(alloc, text)?.ok_or(Wrong::Escape)?;
    let text = str::from_utf8(bytes.as_slice()).map_err(|_| Wrong::NotText)?;
    Ok(String::from_str(alloc, text)?)
}

// A decimal number below 2^64.
fn count(text: &str) -> Result<u64, Wrong>
    ensures { result_ok result ≡ number_below (2 ^ 64) text.now }
{
    let number = number(text.as_bytes()).ok_or(Wrong::NoNumber)?;
    u64::try_from(number).map_err(|_| Wrong::NoNumber)
}
