//! Laws of the definitions, each the contract of a function that does nothing.

ghost use Rattle.std.specs.Prelude.{◌≡◌, ◌↔◌, ℕ, List, None, false};
ghost use Rattle.nd_addr.specs.declared.addr.Addr.{Addr};
ghost use Rattle.nd_addr.specs.declared.role.Role.{Role};
ghost use Rattle.nd_decode.specs.Message.{Parts};
ghost use Rattle.nd_decode.specs.Carried.{Carries};
ghost use Rattle.nd_validity.specs.Validity.{fault_of, is_not_for};
ghost use Rattle.nd_validity.specs.Hearing.{valid, Hears, HearsInSomeRole, hearing_of, hearing_in_some_role};

/// A frame is heard as a valid message exactly if it carries the message, the message has no fault, and the role takes it.
pub fn heard_where_carried()
    ensures heard { (frame : List ℕ) (role : Role) (source destination : Addr) (message : Parts)
        → Hears frame role (valid source destination message) ↔ (Carries frame source destination message × (fault_of source destination message ≡ None) × (is_not_for role message.body ≡ false)) }
    ensures in_some_role { (frame : List ℕ) (source destination : Addr) (message : Parts)
        → HearsInSomeRole frame (valid source destination message) ↔ (Carries frame source destination message × (fault_of source destination message ≡ None)) }
    // The same for the functions.
    ensures heard_exactly { (frame : List ℕ) (role : Role) (source destination : Addr) (message : Parts)
        → (hearing_of frame role ≡ valid source destination message) ↔ (Carries frame source destination message × (fault_of source destination message ≡ None) × (is_not_for role message.body ≡ false)) }
    ensures in_some_role_exactly { (frame : List ℕ) (source destination : Addr) (message : Parts)
        → (hearing_in_some_role frame ≡ valid source destination message) ↔ (Carries frame source destination message × (fault_of source destination message ≡ None)) }
{}
