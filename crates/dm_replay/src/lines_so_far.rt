//! A script that is read line by line.
ghost use Rattle.std.specs.Prelude.{◌≡◌, ◌++◌, ◌∷◌, [], ℕ, true, false, List, length, IfOk};
ghost use Rattle.dm_text.specs.Lines.{content, trimmed, is_skipped};
ghost use Rattle.dm_world.specs.declared.happening.Happening.{Happening};
ghost use Rattle.dm_replay.specs.HappeningLines.{TellsHappening};
ghost use Rattle.dm_replay.specs.Scripts.{MayStandBehind};
ghost use Rattle.dm_replay.specs.LinesSoFar.{TellSoFar};

use crate::happening_line::read_happening;
use crate::host_line::{HostLine, read_host_line};
use dm_text::{is_empty_or_comment, trim_spaces};
use dm_world::{Happening, Side};
use std::alloc::{AllocError, Global};

/// The peers that were named so far.
#[derive(Clone, Copy)]
pub enum NamedPeers<'a> {
    NotYet,
    One(HostLine<'a>),
    Both(HostLine<'a>, HostLine<'a>),
}

/// What the lines so far tell.
#[derive(Drop)]
pub struct LinesSoFar<'a> {
    pub hosts: NamedPeers<'a>,
    pub list: Vec<Happening>,
}

impl<'a> LinesSoFar<'a> {
    /// Behind no lines.
    pub fn new(alloc: Global) -> LinesSoFar<'a>
        ensures { TellSoFar [] result.hosts result.list.items }
    {
        LinesSoFar {
            hosts: NamedPeers::NotYet,
            list: Vec::new(alloc),
        }
    }

    /// Goes on with a line. False where it may not stand there.
    pub fn take_line(&mut self, alloc: Global, line: &'a [u8]) -> Result<bool, AllocError>
        ensures taken { IfOk result (λ taken. taken ≡ true → (lines : List (List ℕ))
            → TellSoFar lines self.old.hosts self.old.list.items
            → TellSoFar (lines ++ content (line.now ∷ [])) self.new.hosts self.new.list.items) }
        ensures stands { IfOk result (λ taken. taken ≡ false → is_skipped (trimmed line.now) ≡ false) }
        ensures refused { IfOk result (λ taken. taken ≡ false → (lines : List (List ℕ))
            → TellSoFar lines self.old.hosts self.old.list.items
            → MayStandBehind (length lines) (trimmed line.now) → ⊥) }
    {
        let line = trim_spaces(line);
        if is_empty_or_comment(line) {
            return Ok(true);
        }
        match self.hosts {
            NamedPeers::NotYet => match read_host_line(Side::A, line) {
                Some(left) => {
                    self.hosts = NamedPeers::One(left);
                    Ok(true)
                }
                None => Ok(false),
            },
            NamedPeers::One(left) => match read_host_line(Side::B, line) {
                Some(right) => {
                    self.hosts = NamedPeers::Both(left, right);
                    Ok(true)
                }
                None => Ok(false),
            },
            NamedPeers::Both(_, _) => self.take_happening_line(alloc, line),
        }
    }

    /// Goes on with the line of a happening. False where it is none.
    fn take_happening_line(&mut self, alloc: Global, line: &[u8]) -> Result<bool, AllocError>
        ensures hosts { self.new.hosts ≡ self.old.hosts }
        ensures taken { IfOk result (λ taken. taken ≡ true → (h : Happening)
            × (self.new.list.items ≡ self.old.list.items ++ h ∷ []) × TellsHappening h line.now) }
        ensures refused { IfOk result (λ taken. taken ≡ false → (h : Happening) → TellsHappening h line.now → ⊥) }
    {
        match read_happening(alloc, line)? {
            Some(happening) => {
                self.list.push(happening)?;
                Ok(true)
            }
            None => Ok(false),
        }
    }
}
