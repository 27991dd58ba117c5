//! A run of the program, line by line: the configuration up to `go`, and the lines of the node behind it.
ghost use Rattle.std.specs.Prelude.{◌≡◌, ◌++◌, ℕ, List, true, false, OnOk};
ghost use Rattle.std.specs.String.{string_bytes};
ghost use Rattle.dm_live.specs.Meetings.{meeting_of};
ghost use Rattle.dm_live.specs.Served.{Drafting, IsGo, AnswersOrder, AnswersLine};
ghost use Rattle.dm_live.specs.Settings.{no_settings};
ghost use Rattle.dm_live.specs.Stages.{stage_of};

use crate::answer::answer_asked_without_dot;
use crate::answer_lines::put_fault_line_and_dot;
use crate::begun::{Begun, answer_go};
use crate::configuration::Draft;
use crate::form::Form;
use crate::order_line::read_order_line;
use crate::sender_lines::{put_acquaintance_or_refusal, read_sender_line};
use dm_node::{Answer, Node};
use dm_text::Words;
use std::alloc::{AllocError, Global};
use std::mem;

/// What the configuration says so far, and the node behind its `go`.
#[derive(Drop)]
pub(crate) struct Live {
    draft: Draft,
    begun: Begun,
    /// What an order asks for, lent to each.
    answer: Answer,
}

impl Live {
    /// Behind no line. It takes no memory.
    pub(crate) fn new(alloc: Global) -> Live
        ensures { stage_of result ≡ Drafting no_settings }
    {
        Live {
            draft: Draft::new(alloc),
            begun: Begun::Nothing,
            answer: Answer::new(),
        }
    }

    /// Goes on with the line of this number, and appends its answer, with the dot behind it, if it has one.
    pub(crate) fn answer_line(
        &mut self,
        alloc: Global,
        number: u64,
        line: &[u8],
        text: &mut String,
    ) -> Result<(), AllocError>
        ensures { OnOk result ((answer : List ℕ)
            × AnswersLine number line.now (stage_of self.old) (stage_of self.new) answer
            × (string_bytes text.new ≡ string_bytes text.old ++ answer)) }
    {
        if let Begun::Running(form, node) = &mut self.begun {
            return answer_line_by_running_node(
                alloc,
                *form,
                node,
                &mut self.answer,
                number,
                line,
                text,
            );
        }
        if is_go(line) {
            let begun = answer_go(alloc, &self.draft, number, text)?;
            drop(mem::replace(&mut self.begun, begun));
            return Ok(());
        }
        if self.draft.take_line(line)? {
            return Ok(());
        }
        put_fault_line_and_dot(text, number, "Syntax")
    }
}

/// Whether the line ends the configuration.
fn is_go(line: &[u8]) -> bool
    ensures told { result ≡ true → IsGo line.now }
    ensures none { result ≡ false → IsGo line.now → ⊥ }
{
    let mut left = Words::new(line);
    match left.next() {
        Some(b"go") => left.next().is_none(),
        _ => false,
    }
}

/// Answers whom a neighbour met, or tells the order of a line and answers it, or answers a bad line.
fn answer_line_by_running_node(
    alloc: Global,
    form: Form,
    node: &mut Node,
    answer: &mut Answer,
    number: u64,
    line: &[u8],
    text: &mut String,
) -> Result<(), AllocError>
    ensures { OnOk result ((answer : List ℕ)
        × AnswersOrder number form line.now (meeting_of node.old) (meeting_of node.new) answer
        × (string_bytes text.new ≡ string_bytes text.old ++ answer)) }
{
    if let Some(index) = read_sender_line(form, line) {
        put_acquaintance_or_refusal(alloc, text, node.known(index))?;
        return text.push_str(".\n");
    }
    match read_order_line(alloc, form, line)? {
        Some(order) => {
            answer_asked_without_dot(alloc, form, node, order.as_order_or_piece(), answer, text)?;
            text.push_str(".\n")
        }
        None => put_fault_line_and_dot(text, number, "Syntax"),
    }
}
