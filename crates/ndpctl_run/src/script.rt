//! A node that answers the lines of a script.

ghost use Rattle.std.specs.Prelude.{◌≡◌, None, Ok, OnOk, IfOk, IfSome, IfNone, ◌<◌, ◌≤◌, ◌^◌, ℕ, string_bytes, ⊤};
ghost use Rattle.nd_table.specs.Moment.{IsMoment};
ghost use Rattle.nd_node.specs.Event.{request_of};
ghost use Rattle.nd_node.specs.NodeKept.{next_of, turns_left};
ghost use Rattle.nd_chronicle.specs.Event as events;
ghost use Rattle.ndpctl_run.specs.Line.{IsLine};
ghost use Rattle.ndpctl_run.specs.ScriptKept.{Begins, Leads};
ghost use Rattle.ndpctl_run.specs.ScriptLaws.{no_line, long_line};
ghost use Rattle.ndpctl_run.specs.Answer.{AnswersEvent, AnswersInPart};
ghost use Rattle.ndpctl_run.specs.Said.{SaysNothing};

use crate::line::{Line, read_line};
use nd_lines::answering::{Answering, Extent, Unanswered};
use nd_node::{Node, Request};
use nd_out::{Reports, write_outs};
use rand_core::Rng;
use std::alloc::{AllocError, Allocator};

/// If something is due by more than this before an event, in milliseconds, it is reported as a part of the answer (our choice). So what is due
/// within an hour is the most that is in memory.
const MUCH_TIME: u64 = 3_600_000;

/// A node, and room for what it reports of one line.
#[derive(Drop)]
pub(crate) struct Script<R, A: Allocator> {
    node: Node<R, A>,
    outs: Reports<A>,
}

impl<R: Rng + Drop, A: Allocator + Clone> Script<R, A> {
    /// Returns a node that has reported nothing yet. Returns an error if out of memory.
    pub(crate) fn new(alloc: A, node: Node<R, A>) -> Result<Self, AllocError>
        ensures { IfOk result (λ script. script.node ≡ node) }
    {
        Ok(Script {
            node,
            outs: Reports::new(alloc)?,
        })
    }

    /// Returns the line that some bytes spell, with its frame in the node's memory. A malformed one takes none. Returns an error if out of memory.
    fn read(&self, line: &[u8]) -> Result<Option<Line<A>>, AllocError>
        ensures found { IfOk result (λ spelled. IfSome spelled (λ read. IsLine line.now read.at (request_of read.event))) }
        ensures malformed { IfOk result (λ spelled. IfNone spelled ((at : ℕ) (event : events.Event) → IsLine line.now at event → ⊥)) }
        ensures quiet { ((at : ℕ) (event : events.Event) → IsLine line.now at event → ⊥) → result ≡ Ok None }
    {
        read_line(self.outs.allocator(), line)
    }

    /// Passes an event to the node, and appends the text of what it reports. Returns an error if out of memory.
    fn event<B: Allocator>(
        &mut self,
        at: u64,
        event: Request<A>,
        text: &mut String<B>,
    ) -> Result<(), AllocError>
        requires { IsMoment at }
        ensures { OnOk result (AnswersEvent R.stream self.old.node self.new.node at (request_of event) (string_bytes text.old) (string_bytes text.new)) }
    {
        self.outs.clear();
        self.node.request(at, &event, &mut self.outs)?;
        write_outs(text, &mut self.outs)
    }

    /// Does the first thing that is due, at `next`, which is not after `end`, both in milliseconds, and appends the text of what the node reports of
    /// it. Returns an error if out of memory.
    fn turn<B: Allocator>(
        &mut self,
        next: u64,
        end: u64,
        text: &mut String<B>,
    ) -> Result<(), AllocError>
        requires moment { IsMoment end }
        requires due { next ≡ next_of self.old.node }
        requires not_after { next ≤ end }
        ensures answered { OnOk result (AnswersInPart R.stream self.old.node self.new.node end (string_bytes text.old) (string_bytes text.new)) }
        ensures fewer { OnOk result ((last : ℕ) → next ≤ last → turns_left last self.new.node < turns_left last self.old.node) }
    {
        let _next = self.node.next_due();
        self.outs.clear();
        self.node.turn(next, &mut self.outs)?;
        write_outs(text, &mut self.outs)
    }

    /// Appends the answer to an event. If more than an hour of what is due is left to be done before it, only the first thing that is due is done,
    /// and its text is a part of the answer. Returns an error if out of memory.
    fn answer_event<B: Allocator>(
        &mut self,
        at: u64,
        event: Request<A>,
        text: &mut String<B>,
    ) -> Result<Extent, AllocError>
        requires { IsMoment at }
        ensures whole { result ≡ Ok Extent.Whole → AnswersEvent R.stream self.old.node self.new.node at (request_of event) (string_bytes text.old) (string_bytes text.new) }
        ensures in_part { result ≡ Ok Extent.InPart → AnswersInPart R.stream self.old.node self.new.node at (string_bytes text.old) (string_bytes text.new) }
        ensures fewer { result ≡ Ok Extent.InPart → turns_left (2 ^ 62) self.new.node < turns_left (2 ^ 62) self.old.node }
    {
        let next = self.node.next_due();
        if at.saturating_sub(next) > MUCH_TIME {
            self.turn(next, at, text)?;
            return Ok(Extent::InPart);
        }
        self.event(at, event, text)?;
        Ok(Extent::Whole)
    }
}

impl<R: Rng + Drop, A: Allocator + Clone> Answering for Script<R, A> {
    ghost texts = { λ script later. Leads R.stream script.node later.node };

    ghost is_malformed = { SaysNothing IsLine };

    ghost begins = { λ script line told. Begins R.stream script.node line told };

    ghost left = { λ script. turns_left (2 ^ 62) script.node };

    ghost fails = { λ _ _ _ _. ⊤ };

    ghost failed = { λ _. 0 };

    ghost no_lines = { λ script. no_line R.stream script.node };

    ghost too_long = { λ script. long_line R.stream script.node };

    fn answer<B: Allocator>(
        &mut self,
        line: &[u8],
        text: &mut String<B>,
    ) -> Result<Extent, Unanswered> {
        crate::laws::one_reading();
        match self.read(line) {
            Ok(Some(read)) => match self.answer_event(read.at, read.event, text) {
                Ok(extent) => Ok(extent),
                Err(_) => Err(Unanswered::Memory),
            },
            Ok(None) => Err(Unanswered::Malformed),
            Err(_) => Err(Unanswered::Memory),
        }
    }
}
