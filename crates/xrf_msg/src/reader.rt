ghost use Rattle.std.specs.Prelude.{◌≡◌, ◌↔◌, ◌+◌, ◌<◌, ◌==◌, ◌&&◌, IfNone, OnSome, Some, drop};
ghost use Rattle.xrf_msg.specs.declared.messages.Message.{Message};
ghost use Rattle.xrf_msg.specs.Messages.{epoch_of, number_of};
ghost use Rattle.xrf_msg.specs.Numbers.{Gives, given};

use crate::messages::Message;
use xrf_base::Inc;
use xrf_gated::OPEN;

/// The numbers of an alternate that reads messages: its epoch, and the number of the message that it
/// takes next.
#[derive(Clone, Copy)]
pub struct Reader {
    pub epoch: Inc,
    pub expected: u32,
}

impl Reader {
    /// The message that a slot gives, where it is the next of the epoch; the one behind it is then
    /// expected. None, with nothing changed, where the slot is closed, or its body spells no message,
    /// or the epoch or the number of the message is another.
    pub fn take(&mut self, slot: &[u8; 64]) -> Option<Message>
        requires { self.old.expected < 4294967295 }
        ensures exact { result ≡ given slot.now self.old.epoch self.old.expected }
        ensures only { (message : Message) → (result ≡ Some message) ↔ Gives slot.now self.old.epoch self.old.expected message }
        ensures taken { OnSome result (self.new ≡ record self.old { expected = self.old.expected + 1 }) }
        ensures none { IfNone result (self.new ≡ self.old) }
    {
        let message = given_by(slot, self.epoch, self.expected);
        if message.is_some() {
            self.expected += 1;
        }
        message
    }
}

// whether a message is of this epoch and number
fn is_expected(message: &Message, epoch: Inc, number: u32) -> bool
    ensures { result ≡ (epoch_of message.now == epoch && number_of message.now == number) }
{
    message.epoch() == epoch && message.number() == number
}

// the message of this epoch and number that a slot gives
fn given_by(slot: &[u8; 64], epoch: Inc, number: u32) -> Option<Message>
    ensures { result ≡ given slot.now epoch number }
{
    if slot[0] != OPEN {
        return None;
    }
    let message = Message::read(&body_of(slot))?;
    if !is_expected(&message, epoch, number) {
        return None;
    }
    Some(message)
}

// what stands behind the gate
fn body_of(slot: &[u8; 64]) -> [u8; 63]
    ensures { result ≡ drop 1 slot.now }
{
    let mut body = [0; 63];
    body.copy_from_slice(&slot[1..]);
    body
}
