//! A link that answers lines.

ghost use Rattle.std.specs.Prelude.{◌≡◌, ◌≢◌, [], None, Ok, Err, OnOk, IsErrOf, IfOk, IfSome, IfNone, ◌<◌, ℕ, string_bytes};
ghost use Rattle.nd_table.specs.Moment.{IsMoment};
ghost use Rattle.nd_lines.specs.Counts.{one_more};
ghost use Rattle.ndpctl_run.specs.Said.{SaysNothing};
ghost use Rattle.nd_random.specs.Source.{stream_of_source};
ghost use Rattle.nd_link_log.specs.Event as events;
ghost use Rattle.nd_link.specs.Event.{link_event};
ghost use Rattle.nd_link.specs.Link.{Stands};
ghost use Rattle.ndpctl_link.specs.Line.{IsLinkLine};
ghost use Rattle.ndpctl_link.specs.ScriptKept.{FailsAt, Leads};
ghost use Rattle.ndpctl_link.specs.ScriptLaws.{no_line, long_line};
ghost use Rattle.ndpctl_link.specs.Answer.{AnswersEvent, Passes};

use crate::line::{LinkLine, read_line};
use crate::told::write_told;
use nd_lines::answering::{Answering, Extent, Unanswered};
use nd_link::{Link, LinkEvent, LinkFault, Told, Wire};
use nd_random::Source;
use std::alloc::{AllocError, Allocator};

/// A link whose nodes draw from sources that lines name, and room for what it reports of one line.
#[derive(Drop)]
pub struct LinkScript<W, A: Allocator> {
    pub(crate) link: Link<W, Source, A>,
    told: Vec<Told<A>, A>,
}

impl<W: Wire, A: Allocator + Copy> LinkScript<W, A> {
    /// Returns a link on which no node has started.
    pub fn new(alloc: A, wire: W) -> Self
        ensures stands { Stands stream_of_source result.link [] }
        ensures wire { result.link.wire ≡ wire }
    {
        LinkScript {
            link: Link::new(alloc, wire),
            told: Vec::new(alloc),
        }
    }

    /// Returns the line that some bytes spell. A malformed one takes no memory. Returns an error if out of memory.
    fn read(&self, line: &[u8]) -> Result<Option<LinkLine<A>>, AllocError>
        ensures found { IfOk result (λ spelled. IfSome spelled (λ read. IsLinkLine line.now read.at (link_event stream_of_source read.event))) }
        ensures malformed { IfOk result (λ spelled. IfNone spelled ((at : ℕ) (event : events.Event) → IsLinkLine line.now at event → ⊥)) }
        ensures quiet { ((at : ℕ) (event : events.Event) → IsLinkLine line.now at event → ⊥) → result ≡ Ok None }
    {
        read_line(self.told.allocator(), line)
    }

    /// Passes an event to the link, and appends the text of what it reports. Returns an error if out of memory or if the wire fails.
    fn event<B: Allocator>(
        &mut self,
        at: u64,
        event: LinkEvent<Source, A>,
        text: &mut String<B>,
    ) -> Result<(), LinkFault>
        requires { IsMoment at }
        ensures answered { OnOk result (AnswersEvent W.arrives stream_of_source self.old.link self.new.link at (link_event stream_of_source event) (string_bytes text.old) (string_bytes text.new)) }
        ensures passes { IsErrOf result LinkFault.Wire → Passes stream_of_source self.old.link self.new.link at }
        ensures wire_failed { IsErrOf result LinkFault.Wire → W.failed self.new.link.wire ≡ one_more (W.failed self.old.link.wire) }
        ensures wire_carried { result ≢ Err LinkFault.Wire → W.failed self.new.link.wire ≡ W.failed self.old.link.wire }
    {
        self.told.clear();
        self.link.event(at, event, &mut self.told)?;
        Ok(write_told(text, &self.told)?)
    }
}

impl<W: Wire, A: Allocator + Copy> Answering for LinkScript<W, A> {
    ghost texts = { λ script later. Leads W.arrives stream_of_source script.link later.link };

    ghost is_malformed = { SaysNothing IsLinkLine };

    // Each line is answered whole.
    ghost begins = { λ _ _ _. ⊥ };

    ghost left = { λ _. 0 };

    ghost fails = { λ script line later why. FailsAt stream_of_source script.link line later.link why };

    ghost failed = { λ script. W.failed script.link.wire };

    ghost no_lines = { λ script. no_line W.arrives stream_of_source script.link };

    ghost too_long = { λ script. long_line W.arrives stream_of_source script.link };

    fn answer<B: Allocator>(
        &mut self,
        line: &[u8],
        text: &mut String<B>,
    ) -> Result<Extent, Unanswered> {
        match self.read(line) {
            Ok(Some(read)) => match self.event(read.at, read.event, text) {
                Ok(()) => Ok(Extent::Whole),
                Err(LinkFault::Memory) => Err(Unanswered::Memory),
                Err(LinkFault::Wire) => Err(Unanswered::Wire),
            },
            Ok(None) => Err(Unanswered::Malformed),
            Err(_) => Err(Unanswered::Memory),
        }
    }
}
