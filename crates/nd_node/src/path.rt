//! Where packets to a destination go, and until when they may be sent there without a question. The definition is in `specs/Path.antt`.

ghost use Rattle.std.specs.Prelude.{◌≡◌, ◌↔◌, ℕ, ◌+◌, ◌<◌, ◌≤◌, ◌&&◌, IfSome, IsSome, None};
ghost use Rattle.std.specs.Option.{option_map};
ghost use Rattle.nd_addr.specs.Number.{number_of};
ghost use Rattle.nd_table.specs.Listing.{open_at};
ghost use Rattle.nd_neighbour.specs.Shown.{is_leased};
ghost use Rattle.nd_neighbour.specs.ShownKept.{seen};
ghost use Rattle.nd_neighbour.specs.TableKept.{entry_in};
ghost use Rattle.nd_nexthop.specs.NextHopKept.{hop_of};
ghost use Rattle.nd_chronicle.specs.Happening.{Chronicle, last_moment};
ghost use Rattle.nd_chronicle.specs.Start.{Start};
ghost use Rattle.nd_node.specs.Moments.{earlier};
ghost use Rattle.nd_node.specs.Path.{IsPath, Lasts, first_end, lease, path_by, path_in, path_to_all};

use crate::due::earlier;
use crate::node::Node;
use crate::reachability_confirmation::neighbour_by;
use nd_addr::{Addr, Mac, Role};
use nd_neighbour::{Neighbour, Reachability};
use nd_nexthop::Hop;
use rand_core::Rng;
use std::alloc::Allocator;

/// Where packets to a destination go.
#[derive(Clone, Copy, Debug, PartialEq, Eq)]
pub struct Path {
    /// The next hop (RFC 4861, section 5.2).
    pub hop: Hop,
    /// The link-layer address that they go to, if it is known.
    pub mac: Option<Mac>,
    /// The state of the neighbour that they go to (RFC 4861, section 7.3.2), if it has an entry. A multicast destination has none.
    pub state: Option<Reachability>,
    /// The end of the lease, in milliseconds: before it packets may be sent to that link-layer address without a question, as long as no event happens. It is
    /// the moment of the question where there is no lease: the address isn't known, the neighbour is STALE, or the node's link-local address isn't assigned.
    pub until: u64,
}

/// A path, and for how long its neighbour still is REACHABLE.
#[derive(Clone, Copy, Debug, PartialEq, Eq)]
pub struct TimedPath {
    pub path: Path,
    /// The time that is left of the state REACHABLE, in milliseconds, if the neighbour is REACHABLE. It may be longer than the lease.
    pub reachable_left: Option<u64>,
}

impl TimedPath {
    /// Returns a path whose neighbour isn't REACHABLE.
    fn without_time(path: Path) -> TimedPath
        ensures { result ≡ record { path = path; reachable_left = None } }
    {
        TimedPath {
            path,
            reachable_left: None,
        }
    }
}

/// Returns true if a neighbour in this state has a link-layer address, and its use changes nothing (RFC 4861, section 7.3.3).
fn is_leased(state: Reachability) -> bool
    ensures { result ≡ is_leased state }
{
    match state {
        Reachability::Incomplete | Reachability::Stale => false,
        Reachability::Reachable | Reachability::Delay | Reachability::Probe => true,
    }
}

/// Returns the moment at which the time that is left at `now` is over, if any is, and at the latest the date `due`; all are in milliseconds.
fn over_or_due(now: u64, left: Option<u64>, due: u64) -> u64
    requires { now < due }
    ensures { result ≡ earlier (option_map (λ time. now + time) left) due }
{
    match left {
        Some(left) if left < due - now => now + left,
        Some(_) | None => due,
    }
}

/// Returns the path to a multicast destination (RFC 2464, section 7). `up`: the link-local address is assigned. Something is due at `due`.
fn path_to_all(up: bool, now: u64, due: u64, destination: Addr) -> Path
    ensures { path_in result ≡ path_to_all up now due destination }
{
    let mac = Mac::multicast(destination);
    Path {
        hop: Hop::Direct,
        mac: Some(mac),
        state: None,
        until: if up { due } else { now },
    }
}

impl<R: Rng + Drop, A: Allocator + Clone> Node<R, A> {
    ghost use Rattle.nd_node.specs.NodeKept.{Stands, next_of};
    ghost use Rattle.nd_node.specs.PathKept.{hop_kept, left_kept, left_of, path_kept};

    /// Returns the end of the lease of a path to a neighbour that stays REACHABLE for the time `left`, if it is. Something is due at `due`.
    fn lease(&self, leased: bool, now: u64, due: u64, left: Option<u64>) -> u64
        requires { now < due }
        ensures { result ≡ lease leased now (earlier (option_map (λ time. now + time) left) due) (first_end self.now.role (open_at now self.now.prefixes.entries)) }
    {
        if !leased {
            return now;
        }
        let end = over_or_due(now, left, due);
        match self.role {
            Role::Host => earlier(self.prefixes.least_end(now), end),
            Role::Router => end,
        }
    }

    /// Returns the path to a neighbour, which may have no entry. `up`: the link-local address is assigned. Something is due at `due`.
    fn path_by(&self, up: bool, now: u64, due: u64, hop: Hop, to: Addr) -> TimedPath
        requires { now < due }
        ensures left { result.reachable_left ≡ left_of (option_map (seen now) (entry_in (number_of to.0) self.now.neighbours.entries)) }
        ensures path { path_in result.path ≡ path_by up now due (first_end self.now.role (open_at now self.now.prefixes.entries)) (hop_of hop) (option_map (seen now) (entry_in (number_of to.0) self.now.neighbours.entries)) }
    {
        let Some(neighbour) = self.neighbours.get(to) else {
            return TimedPath::without_time(Path {
                hop,
                mac: None,
                state: None,
                until: now,
            });
        };
        let state = neighbour.state(now);
        let left = neighbour.reachable_left(now);
        let leased = up && is_leased(state);
        TimedPath {
            path: Path {
                hop,
                mac: neighbour.mac(),
                state: Some(state),
                until: self.lease(leased, now, due, left),
            },
            reachable_left: left,
        }
    }

    /// Returns where packets to `destination` go at `now`, in milliseconds, up to which nothing is due, and until when they may be sent there without a
    /// question (RFC 4861, section 5.2). It adds nothing and takes no memory: a neighbour is neither used nor resolved.
    pub fn path(&self, now: u64, destination: Addr) -> Path
        requires settled { now < next_of self.now }
        ensures path { (start : Start) (c : Chronicle) → Stands R.stream start self.now c → last_moment start.at c ≤ now → IsPath start c now destination (path_in result) }
        ensures value { path_in result ≡ path_kept self.now now destination }
        ensures lasts { (start : Start) (c : Chronicle) (moment : ℕ) → Stands R.stream start self.now c → last_moment start.at c ≤ now → now ≤ moment → moment < result.until → Lasts start c moment destination (path_in result) }

        // There is no lease where the link-layer address isn't known.
        ensures unleased { result.mac ≡ None → result.until ≡ now }
    {
        let hop = self.next_hop_to(now, destination);
        self.path_through(now, self.next_due(), hop, destination)
            .path
    }

    /// Returns the path of a destination, as `path` does, and for how long its neighbour still is REACHABLE: `None` if something is due up to `now`. It keeps
    /// the place of that neighbour: if the next question is about it, it needs no search.
    pub fn timed_path(&mut self, now: u64, destination: Addr) -> Option<TimedPath>
        ensures settled { IsSome result ↔ (now < next_of self.old) }
        ensures value { IfSome result (λ timed. path_in timed.path ≡ path_kept self.old now destination) }
        ensures left { IfSome result (λ timed. timed.reachable_left ≡ left_kept self.old now destination) }
        ensures same { self.new ≡ self.old }
    {
        let due = self.next_due();
        if due <= now {
            return None;
        }
        let hop = self.next_hop_to(now, destination);
        self.seek(hop, destination);
        Some(self.path_through(now, due, hop, destination))
    }

    /// Keeps the place of the neighbour that packets to a destination go to by the next hop.
    fn seek(&mut self, hop: Hop, destination: Addr)
        ensures { self.new ≡ self.old }
    {
        if let Some(neighbour) = neighbour_by(hop, destination) {
            let _is_there = self.neighbours.seek(neighbour);
        }
    }

    /// Returns the path of a destination by its next hop, and for how long its neighbour still is REACHABLE. Something is due at `due`.
    fn path_through(&self, now: u64, due: u64, hop: Hop, destination: Addr) -> TimedPath
        requires settled { now < due }
        requires due { due ≡ next_of self.now }
        requires hop { hop_of hop ≡ hop_kept self.now.role self.now now destination }
        ensures value { path_in result.path ≡ path_kept self.now now destination }
        ensures left { result.reachable_left ≡ left_kept self.now now destination }
    {
        let up = self.is_up();
        match hop {
            Hop::NoRoute => TimedPath::without_time(Path {
                hop,
                mac: None,
                state: None,
                until: now,
            }),
            Hop::Via(router) => self.path_by(up, now, due, hop, router),
            Hop::Direct => {
                if destination.is_multicast() {
                    return TimedPath::without_time(path_to_all(up, now, due, destination));
                }
                self.path_by(up, now, due, hop, destination)
            }
        }
    }
}
