ghost use Rattle.std.specs.Prelude.{◌≡◌, Bool, true, false, List, [], ◌∷◌, ◌++◌, Option, Some, None, OnOk, OnErr};
ghost use Rattle.smp_split.specs.{Paths.{Entry}, Runs.{KeepsStep, and_then}};

use crate::{Kind, Splitting};
use smp_frac::NoMemory;
use std::alloc::Global;
use std::marker::Model;

/// What is told of each step of a walk down a design of this type.
pub trait Trace<S: Splitting> {
    /// The lines so far, where they are told.
    ghost lines: { Self → Option (List Entry) };

    /// Whether a line may be refused.
    ghost may_refuse: { Bool };

    /// What it keeps of a walk down a design from a state to another.
    ghost keeps: { S → S.State → S.State → Self → Type 0 };

    /// Takes note of a step at a state of a design: its kind, its bound and the value that was drawn.
    fn line(
        &mut self,
        design: &S,
        state: &S::State,
        kind: Kind,
        bound: u128,
        value: u128,
    ) -> Result<(), NoMemory>
        requires { (S.method design.now).belongs state.now }
        ensures ok { OnOk result
            (lines self.new ≡ and_then (lines self.old) ((kind, bound, value) ∷ [])) }
        ensures err { OnErr result (lines self.new ≡ lines self.old) }
        ensures refused { OnErr result (may_refuse ≡ true) }
        ensures kept { OnOk result (KeepsStep (S.method design.now).tree (keeps design.now) state.now
            (kind, bound, value) self.old self.new) };
}

/// Keeps nothing.
#[derive(Drop)]
pub struct NoTrace;

impl<S: Splitting> Trace<S> for NoTrace {
    ghost lines = { λ _. None };

    ghost may_refuse = { false };

    ghost keeps = { λ _ _ _ _. Unit {0} };

    fn line(
        &mut self,
        _design: &S,
        _state: &S::State,
        _kind: Kind,
        _bound: u128,
        _value: u128,
    ) -> Result<(), NoMemory> {
        Ok(())
    }
}

/// Keeps every line. It is seen as their list.
#[derive(Drop)]
pub struct Lines {
    lines: Vec<(Kind, u128, u128)>,
}

impl Model for Lines {
    ghost Value = { List Entry };

    ghost view = { λ a. a.lines.items };
}

impl Lines {
    /// No line.
    pub fn new(alloc: Global) -> Lines
        ensures { result ≡ [] }
    {
        Lines {
            lines: Vec::new(alloc),
        }
    }

    /// Puts a line behind the others: kind, bound and value.
    pub fn push(&mut self, kind: Kind, bound: u128, value: u128) -> Result<(), NoMemory>
        ensures ok { OnOk result (self.new ≡ self.old ++ (kind, bound, value) ∷ []) }
        ensures err { OnErr result (self.new ≡ self.old) }
    {
        self.lines.push((kind, bound, value))?;
        Ok(())
    }

    /// The lines in order: kind, bound and value.
    pub fn as_slice(&self) -> &[(Kind, u128, u128)]
        ensures { result.now ≡ self.now }
    {
        self.lines.as_slice()
    }
}

impl<S: Splitting> Trace<S> for Lines {
    ghost lines = { λ a. Some a };

    ghost may_refuse = { true };

    ghost keeps = { λ _ _ _ _. Unit {0} };

    fn line(
        &mut self,
        _design: &S,
        _state: &S::State,
        kind: Kind,
        bound: u128,
        value: u128,
    ) -> Result<(), NoMemory> {
        self.push(kind, bound, value)
    }
}
