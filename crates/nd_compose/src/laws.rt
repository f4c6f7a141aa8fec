//! Laws of the definitions, each the contract of a function that does nothing.

ghost use Rattle.std.specs.Prelude.{◌∷◌, [], ℕ, Bool, true, List};
ghost use Rattle.nd_addr.specs.Bytes.{AreBytes};
ghost use Rattle.nd_addr.specs.Frame.{addressed};
ghost use Rattle.nd_addr.specs.declared.addr.Addr.{Addr};
ghost use Rattle.nd_addr.specs.declared.mac.Mac.{Mac};
ghost use Rattle.nd_addr.specs.declared.role.Role.{Role};
ghost use Rattle.nd_decode.specs.Carried.{Carries};
ghost use Rattle.nd_decode.specs.Option.{slla};
ghost use Rattle.nd_decode.specs.declared.body.Body.TheVariants as bodies;
ghost use Rattle.nd_validity.specs.Hearing.{Hears, valid};
ghost use Rattle.nd_compose.specs.Frames.{unspecified, all_nodes, all_routers, solicited_node, detection_frame, solicitation, resolution_frame, probe_frame, router_solicitation_frame, advertisement, defence_frame, answer_frame};
ghost use Rattle.nd_compose.specs.Meaning.{IsUnicast, IsDetection, IsDefence};

/// A frame that a node sends for itself carries what it is to say, its sender and its receiver, for all addresses.
pub fn sent_as_meant()
    ensures detection { (mac : Mac) (address : Addr) → AreBytes 6 mac.0 → AreBytes 16 address.0 → IsDetection (detection_frame mac address) address }
    ensures defence { (router : Bool) (mac : Mac) (address : Addr) → AreBytes 6 mac.0 → AreBytes 16 address.0 → IsDefence (defence_frame router mac address) address }
    ensures resolution { (mac : Mac) (source target : Addr) → AreBytes 6 mac.0 → AreBytes 16 source.0 → AreBytes 16 target.0
        → Carries (resolution_frame mac source target) source (solicited_node target) (solicitation mac target) }
    ensures probe { (mac : Mac) (source : Addr) (to : Mac) (target : Addr) → AreBytes 6 mac.0 → AreBytes 16 source.0 → AreBytes 6 to.0 → AreBytes 16 target.0
        → Carries (probe_frame mac source to target) source target (solicitation mac target) }
    ensures router_solicitation { (mac : Mac) (source : Addr) → AreBytes 6 mac.0 → AreBytes 16 source.0
        → Carries (router_solicitation_frame mac source) source all_routers (record { body = bodies.Rs; options = slla mac ∷ [] }) }
    // The answer to a solicitation is sent once the asker's Ethernet address is known.
    ensures answer { (router : Bool) (mac : Mac) (target asker : Addr) (to : Mac) → AreBytes 6 mac.0 → AreBytes 16 target.0 → AreBytes 16 asker.0 → AreBytes 6 to.0
        → Carries (addressed to (answer_frame router mac target asker)) target asker (advertisement router true mac target) }
{}

/// A frame that tries an address, and one that announces to all nodes that it is held, are understood so by hosts and by routers, for every sender
/// (RFC 4862, section 5.4).
pub fn heard_as_meant()
    ensures detection { (frame : List ℕ) (address : Addr) (role : Role) → IsUnicast address → (d : IsDetection frame address) → Hears frame role (valid unspecified (solicited_node address) d.message) }
    ensures defence { (frame : List ℕ) (address : Addr) (role : Role) → IsUnicast address → (d : IsDefence frame address) → Hears frame role (valid address all_nodes d.message) }
{}
