ghost use Rattle.std.specs.Prelude.{◌≡◌, IfOk, Ok};
ghost use Rattle.tp_wire.specs.Meaning.{ended_at, message_of, start};
ghost use Rattle.tp_wire.specs.Ranges.{IsInRange};
ghost use Rattle.tp_wire.specs.Reading.{Gives, IsReadAs};
ghost use Rattle.tp_wire.specs.Spelling.{bytes_of};
ghost use Rattle.tp_wire.specs.declared.message.Message.{Message as MessageValue};

use crate::bodies::take_message;
use crate::fault::{WireCause, WireError};
use crate::fields::fault;
use crate::message::Message;
use crate::writing::{kind, put_actor, put_fields};
use std::alloc::Global;
use tp_base::{Bytes, Cut, NoMemory, Put};

#[tactic(auto, unfolding(crate::specs::Meaning::ended_at))]
fn take_end(cut: &mut Cut) -> Result<(), WireError>
    ensures { Gives (λ _. tt) result (ended_at cut.old) }
{
    let place = cut.place();
    match cut.u8_at() {
        Ok(_) => Err(fault(place, WireCause::Trailing)),
        Err(_) => Ok(()),
    }
}

// What all of the bytes say.
#[tactic(auto, unfolding(crate::specs::Meaning::message_of))]
fn decode_all(alloc: Global, bytes: &[u8]) -> Result<Message, WireError>
    ensures { Gives (λ m. m) result (message_of bytes.now) }
{
    let mut cut = Cut::new(bytes);
    let message = take_message(alloc, &mut cut)?;
    take_end(&mut cut)?;
    Ok(message)
}

/// The message whose bytes are all of these.
pub fn decode(alloc: Global, bytes: &[u8]) -> Result<Message, WireError>
    // What is decoded is in range, and the bytes spell it.
    ensures found { IfOk result (λ m. IsInRange m × (bytes.now ≡ bytes_of m)) }
    // The bytes of a message in range are decoded as it, unless memory runs out.
    ensures only { (m : MessageValue) → IsInRange m → bytes.now ≡ bytes_of m → IsReadAs m result }
    // A fault is the first one from the left, with its place.
    ensures exact { Gives (λ m. m) result (message_of bytes.now) }
{
    decode_all(alloc, bytes)
}

/// The one spelling of a message.
#[tactic(auto, unfolding(crate::specs::Spelling::bytes_of))]
pub fn encode(alloc: Global, message: &Message) -> Result<Bytes, NoMemory>
    requires { IsInRange message.now }
    ensures { IfOk result (λ bytes. bytes ≡ bytes_of message.now) }
{
    let mut put = Put::new(alloc);
    put.byte(kind(&message.body))?;
    put_actor(&mut put, message.from)?;
    put_actor(&mut put, message.to)?;
    put_fields(&mut put, message)?;
    Ok(put.finish())
}
