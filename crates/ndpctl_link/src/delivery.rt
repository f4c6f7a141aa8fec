//! The words of a script that carry a frame to a node.

ghost use Rattle.std.specs.Prelude.{◌≡◌, ℕ, IfSome};
ghost use Rattle.std.specs.Option.{IsSomeAnd};
ghost use Rattle.ndpctl_link.specs.Delivery.{IsDelivery};

use ndpctl_run::{read_number, split_number};

/// Returns the number of a node and that of a frame, each below 2^64, that some words spell.
pub(crate) fn read_delivery(words: &[u8]) -> Option<(u64, u64)>
    ensures found { IfSome result (λ numbers. IsDelivery words.now numbers.0 numbers.1) }
    ensures only { (node frame : ℕ) → IsDelivery words.now node frame → IsSomeAnd result (λ numbers. (numbers.0 ≡ node) × (numbers.1 ≡ frame)) }
{
    let (node, rest) = split_number(words)?;
    let frame = read_number(rest)?;
    Some((node, frame))
}
