//! The start of a node on a link.

ghost use Rattle.std.specs.Prelude.{◌≡◌, ◌∷◌, ◌<◌, ◌≤◌, IsOk, OnErr, OnOk, vec_capacity, vec_len};
ghost use Rattle.nd_table.specs.Moment.{IsMoment};
ghost use Rattle.nd_link_log.specs.Log as links;
ghost use Rattle.nd_link_log.specs.Log.{Log, Refuses};
ghost use Rattle.nd_link_log.specs.Event.{Starts};
ghost use Rattle.nd_link.specs.Arrival.{Happens, reached};
ghost use Rattle.nd_link.specs.Due.{AreSettled};
ghost use Rattle.nd_link.specs.Link.{Stands};
ghost use Rattle.nd_link.specs.Time.{Leads};

use crate::link::{Link, MAX_NODES};
use crate::refusal::Refusal;
use crate::told::Told;
use nd_addr::{Mac, Role};
use nd_node::{Limits, Node};
use nd_slaac::Transmits;
use rand_core::Rng;
use std::alloc::{AllocError, Allocator};

impl<W, R: Rng + Drop, A: Allocator + Copy> Link<W, R, A> {
    /// Starts another node, with the usual limits. Refuses it if the link has `MAX_NODES` nodes. Out of memory: nothing is reported.
    pub(crate) fn start(
        &mut self,
        now: u64,
        role: Role,
        mac: Mac,
        transmits: Transmits,
        generator: R,
        told: &mut Vec<Told<A>, A>,
    ) -> Result<(), AllocError>
        requires moment { IsMoment now }
        requires settled { AreSettled now self.old.nodes.items }
        requires in_time { self.old.last ≤ now }
        ensures leads { OnOk result (Leads R.stream self.old self.new told.old.items told.new.items (Happens now (Starts role mac transmits (R.stream generator)))) }
        ensures told { OnErr result (told.new.items ≡ told.old.items) }
        ensures refused { (why : links.Refusal) (log : Log) → Stands R.stream self.old log → Happens now (Starts role mac transmits (R.stream generator)) log (Refuses now why ∷ reached now log) → vec_len told.old < vec_capacity told.old → IsOk result }
        ensures wire { self.new.wire ≡ self.old.wire }
        ensures spent { self.new.spent ≡ self.old.spent }
    {
        if self.nodes.len() == MAX_NODES {
            return self.refuse(now, Refusal::Full, told);
        }
        let Ok(node) = Node::new(
            self.alloc,
            role,
            mac,
            now,
            transmits,
            Limits::usual(),
            generator,
        ) else {
            return Err(AllocError);
        };
        self.reach(now);
        self.nodes.push(node)?;
        Ok(())
    }
}
