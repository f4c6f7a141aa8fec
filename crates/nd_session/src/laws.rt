//! Laws of the definitions, each the contract of a function that does nothing.

ghost use Rattle.std.specs.Prelude.{◌≡◌, ◌<◌, ◌≤◌, ◌^◌, ◌-◌, ℕ, Some};
ghost use Rattle.nd_addr.specs.declared.addr.Addr.{Addr};
ghost use Rattle.nd_addr.specs.declared.mac.Mac.{Mac};
ghost use Rattle.nd_addr.specs.Number.{number_of};
ghost use Rattle.nd_chronicle.specs.Happening.{Chronicle, last_moment};
ghost use Rattle.nd_chronicle.specs.Start.{Start};
ghost use Rattle.nd_node.specs.NodeKept.{Stands};
ghost use Rattle.nd_node.specs.Path.{Lasts};
ghost use Rattle.nd_node.specs.PathKept.{InLease, path_kept, towards};
ghost use Rattle.nd_random.specs.Source.{stream_of_source};
ghost use Rattle.nd_session.specs.declared.session.Session.{Session};
ghost use Rattle.nd_session.specs.Leases.{KeepsLeases};

/// A lease holds up to its end, whatever calls came in between, as long as the version is the same and isn't the last one: packets go the same way, and to a
/// neighbour that isn't STALE (RFC 4861, section 7.3.3). So a question there changes nothing (`Node::answer_leased`). What holds of two calls holds of one behind
/// the other.
pub fn leases_hold()
    ensures path { (old new : Session) (start : Start) (c : Chronicle) (now moment : ℕ) (destination : Addr) → KeepsLeases old new → new.paths.leases ≡ old.paths.leases → old.paths.leases < 2 ^ 64 - 1
        → Stands stream_of_source start new.node c → last_moment start.at c ≤ moment → now ≤ moment → moment < (path_kept old.node now destination).until
        → Lasts start c moment destination (path_kept old.node now destination) }
    ensures packet { (old new : Session) (now moment : ℕ) (destination to : Addr) (mac : Mac) → KeepsLeases old new → new.paths.leases ≡ old.paths.leases → old.paths.leases < 2 ^ 64 - 1
        → now ≤ moment → moment < (path_kept old.node now destination).until → towards (path_kept old.node now destination).next destination ≡ number_of to.0
        → (path_kept old.node now destination).mac ≡ Some (number_of mac.0) → InLease new.node moment destination to mac }
    ensures calls { (old mid new : Session) → KeepsLeases old mid → KeepsLeases mid new → KeepsLeases old new }
{}
