//! What differs from what is wanted.

ghost use Rattle.std.specs.Prelude.{◌≡◌, ◌+◌, ◌≤◌, ◌↔◌, IsTrue, OnErr, OnOk, length, option_map};
ghost use Rattle.smp_caseread.specs.Compared.{Compares};

use crate::escapes::Shown;
use std::alloc::{AllocError, Global};
use std::marker::Model;

/// What differs, a text for each part. It is seen as the number of these parts.
#[derive(Drop)]
pub struct Differences {
    texts: Vec<String>,
}

impl Model for Differences {
    ghost use Rattle.std.specs.Prelude.{ℕ, length};

    ghost Value = { ℕ };

    ghost view = { λ d. length d.texts.items };
}

impl Differences {
    /// Nothing differs yet.
    pub fn new(alloc: Global) -> Differences
        ensures { result ≡ 0 }
    {
        Differences {
            texts: Vec::new(alloc),
        }
    }

    /// Whether all that was compared is as wanted.
    pub fn is_empty(&self) -> bool
        ensures { IsTrue result ↔ (self.now ≡ 0) }
    {
        self.texts.is_empty()
    }

    /// The texts so far.
    pub fn as_slice(&self) -> &[String]
        ensures { length result.now ≡ self.now }
    {
        self.texts.as_slice()
    }

    /// Adds that the exit code differs, where it does. After want of memory nothing is added.
    pub fn compare_codes(&mut self, wanted: u8, got: u8) -> Result<(), AllocError>
        ensures compared { OnOk result (Compares (wanted ≡ got) self.old self.new) }
        ensures same { OnErr result (self.new ≡ self.old) }
    {
        if wanted == got {
            return Ok(());
        }
        self.add(format!(in self.alloc(); "code: wanted {wanted}, got {got}")?)
    }

    /// Adds that the content of a file differs, or that there is a file or none, where it is so. After want of memory
    /// nothing is added.
    pub fn compare_files(
        &mut self,
        name: &str,
        wanted: Option<&[u8]>,
        got: Option<&[u8]>,
    ) -> Result<(), AllocError>
        ensures compared { OnOk result (Compares
            (option_map (λ b. b.now) wanted.entry ≡ option_map (λ b. b.now) got.entry)
            self.old self.new) }
        ensures same { OnErr result (self.new ≡ self.old) }
    {
        let alloc = self.alloc();
        match (wanted, got) {
            (None, None) => Ok(()),
            (Some(wanted), Some(got)) => {
                let part = format!(in alloc; "file {name}")?;
                self.compare_bytes(part.as_str(), wanted, got)
            }
            (Some(wanted), None) => {
                let wanted = Shown(wanted);
                self.add(format!(in alloc; "file {name}: wanted {wanted}, got no file")?)
            }
            (None, Some(got)) => {
                let got = Shown(got);
                self.add(format!(in alloc; "file {name}: wanted no file, got {got}")?)
            }
        }
    }

    /// Adds where two texts differ first, where they do, with what follows there in each. After want of memory nothing is
    /// added.
    pub fn compare_bytes(&mut self, part: &str, wanted: &[u8], got: &[u8]) -> Result<(), AllocError>
        ensures compared { OnOk result (Compares (wanted.now ≡ got.now) self.old self.new) }
        ensures same { OnErr result (self.new ≡ self.old) }
    {
        if wanted == got {
            return Ok(());
        }
        let at = common_length(wanted, got);
        let place = at as u64 + 1;
        let wanted = Shown(&wanted[at..]);
        let got = Shown(&got[at..]);
        self.add(format!(in self.alloc();
            "{part}: from byte {place} on wanted {wanted}, got {got}"
        )?)
    }

    fn add(&mut self, text: String) -> Result<(), AllocError>
        ensures added { OnOk result (self.new ≡ self.old + 1) }
        ensures same { OnErr result (self.new ≡ self.old) }
    {
        self.texts.push(text)?;
        Ok(())
    }

    fn alloc(&self) -> Global {
        *self.texts.allocator()
    }
}

// How many bytes two texts share from their beginning on.
fn common_length(left: &[u8], right: &[u8]) -> usize
    ensures left { result ≤ length left.now }
    ensures right { result ≤ length right.now }
{
    left.iter().zip(right).take_while(|(a, b)| a == b).count()
}
