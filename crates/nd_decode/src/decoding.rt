ghost use Rattle.std.specs.Prelude.{◌≡◌, IfOk, IfErr, Ok, Err};
ghost use Rattle.nd_addr.specs.Given.{Gives};
ghost use Rattle.nd_decode.specs.Message.{HasKnownKind, Parts, parts, Spells, IsRefused};
ghost use Rattle.nd_decode.specs.MessageType.{IsOfType};
ghost use Rattle.nd_decode.specs.Decoding.{decode_of};

use crate::body::Body;
use crate::message_ref::MessageRef;
use crate::message_type::MessageType;
use crate::options::Options;
use crate::pieces::fault_in;
use nd_addr::Why;

/// Returns the message that some bytes spell. The caller passes its type, which it knows from asking if the bytes are a message at all. The errors
/// are those of `decode`.
#[tactic(auto, unfolding(crate::specs::Decoding::decode_of))]
pub fn decode_as(kind: MessageType, bytes: &[u8]) -> Result<MessageRef<'_>, Why>
    requires { IsOfType kind bytes.now }
    ensures { Gives parts result (decode_of bytes.now) }
{
    if bytes.len() > 1 && bytes[1] != 0 {
        return Err(Why::Code);
    }
    let least = kind.least_length();
    if bytes.len() < least {
        return Err(Why::Length);
    }
    let rest = &bytes[least..];
    if let Some(why) = fault_in(rest) {
        return Err(why);
    }
    Ok(MessageRef {
        body: Body::read(kind, bytes),
        options: Options::new(rest),
    })
}

/// Returns the message that some bytes spell (RFC 4861, section 4). Their first byte is the type of a known message.
///
/// Returns `Code` if there is a second byte and it is not 0; otherwise `Length` if there are fewer bytes than the fields of the type have;
/// otherwise what is wrong with the first option that is not whole, `OptionZero` for a length of 0 and `OptionOver` if it is not complete. This
/// order is our choice. The checksum and all reserved fields are not looked at, and an option whose type is not known or whose data do not fit its
/// type is `Other` (RFC 4861, sections 4.6 and 6.1 to 8.1).
pub fn decode(bytes: &[u8]) -> Result<MessageRef<'_>, Why>
    requires { HasKnownKind bytes.now }
    // A message that is returned is spelled by the bytes, and if they spell a message, it is returned.
    ensures found { IfOk result (λ m. Spells bytes.now (parts m)) }
    ensures only { (m : Parts) → Spells bytes.now m → Gives parts result (Ok m) }
    // The error is the first reason that holds, and if one holds, it is returned.
    ensures refused { IfErr result (λ why. IsRefused bytes.now why) }
    ensures only_refused { (why : Why) → IsRefused bytes.now why → result ≡ Err why }
    // The same as one function.
    ensures exactly { Gives parts result (decode_of bytes.now) }
{
    match MessageType::of(bytes[0]) {
        Some(kind) => decode_as(kind, bytes),
        None => unreachable!(),
    }
}
