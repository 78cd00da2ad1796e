//! All places of a tree with their words, one atomic step at a time.
ghost use Rattle.std.specs.Prelude.{◌≡◌, ◌^◌, ◌<◌, IfOk, length, slice_index};
ghost use Rattle.ya_core.specs.ArbitrationTree.{count_of_words};
ghost use Rattle.std.specs.List.{position};
ghost use Rattle.ya_core.specs.Steps.{Accesses, StepsTo, opening, value_of};
ghost use Rattle.ya_core.specs.Soundness.{IsSoundState};
ghost use Rattle.ya_core.specs.WalkerModel.{AccessIsWithin};
ghost use Rattle.ya_core.specs.inside.Machines.{IsMachine, TakesStep, rows};
ghost use Rattle.ya_core.specs.Machines.{state_of, step_of, step_by, mark_of};
ghost use Rattle.ya_core.specs.FlatRow.{words_of};
ghost use Rattle.ya_core.specs.Worlds.{ReportsInside, is_inside};

use crate::process::Process;
use crate::shape::Shape;
use crate::step::{Mark, Step};
use crate::word::Access;
use std::alloc::{AllocError, AllocFailed, Global};
use std::marker::Model;
use thiserror::Error;

/// Memory couldn't be allocated.
#[derive(Debug, Error, Drop)]
#[error("out of memory")]
pub struct NoMemory;

impl From<AllocError> for NoMemory {
    fn from(_refused: AllocError) -> NoMemory {
        NoMemory
    }
}

impl<T: Drop> From<AllocFailed<T>> for NoMemory {
    fn from(_refused: AllocFailed<T>) -> NoMemory {
        NoMemory
    }
}

/// All places of a tree with its words. One place at a time takes one atomic step.
///
/// Contracts see it as its rows: its levels, its words in one flat row and its processes by place. `state_of` shows
/// words by name and processes by place; this state always satisfies the lock's invariant (`holds`).
#[derive(Debug, Drop)]
pub struct Machine {
    shape: Shape,
    words: Vec<u64>,
    processes: Vec<Process>,
}

impl Model for Machine {
    ghost use Rattle.ya_core.specs.Machines.{Rows};
    ghost use Rattle.ya_core.specs.inside.Machines.{IsMachine, rows};

    ghost Value = { Rows };

    ghost view = { λ m. rows m.shape m.words.items m.processes.items };

    ghost invariant = { λ m. IsMachine (rows m.shape m.words.items m.processes.items) };
}

impl Machine {
    /// Returns the machine at the start: every word 0, every process idle. Fails only if memory runs out.
    pub fn new(alloc: Global, shape: Shape) -> Result<Machine, NoMemory>
        ensures levels { IfOk result (λ machine. machine.levels ≡ shape) }
        ensures start { IfOk result (λ machine. state_of machine ≡ opening) }
    {
        let words = vec![in alloc; 0; shape.words()]?;
        let processes = vec![in alloc; Process::Idle; shape.places()]?;
        Ok(Machine {
            shape,
            words,
            processes,
        })
    }

    /// Makes known to a proof that the machine's state satisfies the lock's invariant, so that the laws of such states are
    /// about it. Does nothing.
    pub fn holds(&self)
        ensures { IsSoundState self.now.levels (state_of self.now) }
    {
        let _ = self.shape.levels();
    }

    /// Takes one atomic step of the place. An idle place begins its entry, a place that is inside begins its exit, and
    /// a waiting place reads its spin word once.
    pub fn step(&mut self, place: usize) -> Step
        requires { place < 2 ^ self.old.levels }
        ensures levels { self.new.levels ≡ self.old.levels }
        ensures step { StepsTo self.old.levels place (state_of self.old) (state_of self.new) }
        ensures told { result ≡ step_of self.old.levels place (state_of self.old) }
    {
        take_step(&self.shape, place, &mut self.words, &mut self.processes)
    }

    /// Returns the place that is inside, if any.
    pub fn inside(&self) -> Option<usize>
        ensures { ReportsInside (state_of self.now) result }
    {
        first_inside(&self.processes)
    }

    /// Returns the value of the word with this number.
    pub fn word(&self, number: usize) -> u64
        requires { number < count_of_words self.now.levels }
        ensures { result ≡ slice_index self.now.words number }
    {
        self.words[number]
    }
}

/// Takes the place's step in the row of words and the list of processes.
fn take_step(shape: &Shape, place: usize, words: &mut [u64], processes: &mut [Process]) -> Step
    requires room { place < 2 ^ shape.now }
    requires machine { IsMachine (rows shape.now words.old processes.old) }
    ensures { let old = rows shape.now words.old processes.old in
        TakesStep place old (rows shape.now words.new processes.new) result }
{
    let levels = shape.levels();
    let process = processes[place];
    let access = process.access(levels, place);
    let value = perform(shape, words, access);
    let next = process.next(levels, place, value);
    processes[place] = next;
    step_by(place, access, value, next)
}

/// Makes the access in the row of words, and returns the value that it loaded or stored.
fn perform(shape: &Shape, words: &mut [u64], access: Access) -> u64
    requires within { AccessIsWithin shape.now access }
    requires room { length words.old ≡ count_of_words shape.now }
    ensures words { Accesses access (words_of shape.now words.old) (words_of shape.now words.new) }
    ensures value { result ≡ value_of (words_of shape.now words.old) access }
{
    match access {
        Access::Load(word) => words[shape.number(word)],
        Access::Store(word, value) => {
            words[shape.number(word)] = value;
            value
        }
    }
}

/// Returns the record of a step: the place made the access and became the process `next`.
fn step_by(place: usize, access: Access, value: u64, next: Process) -> Step
    ensures { result ≡ step_by place access value next }
{
    let (word, store) = match access {
        Access::Load(word) => (word, false),
        Access::Store(word, _) => (word, true),
    };
    Step {
        place,
        word,
        store,
        value,
        mark: mark(next),
    }
}

/// Returns the effect of a step that leads to the process.
fn mark(process: Process) -> Mark
    ensures { result ≡ mark_of process }
{
    match process {
        Process::Inside => Mark::Inside,
        Process::Idle => Mark::Out,
        _ => Mark::Plain,
    }
}

/// Returns the first place whose process is inside.
fn first_inside(processes: &[Process]) -> Option<usize>
    ensures { result ≡ position is_inside processes.now }
{
    processes
        .iter()
        .position(|process| matches!(process, Process::Inside))
}
