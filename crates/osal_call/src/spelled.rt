//! What says a call: its name, and its arguments.
ghost use Rattle.std.specs.Prelude.{◌≡◌, ◌==◌, ◌∷◌, [], false, length, MatchOption};
ghost use Rattle.osal_call.specs.Argument.{Number};
ghost use Rattle.osal_call.specs.Shapes.{is_id_before, is_text, is_number, is_bare, all_meant};
ghost use Rattle.osal_call.specs.Signature.{spelled};

use crate::argument::{Argument, Arguments};
use crate::word::{bare_of, object_of, pair_of, text_of, triple_of};
use crate::{Call, CallWord};

/// The name of a call, and its arguments in their order.
pub fn spelling_of(call: &Call) -> (&'static [u8], Arguments<'_>)
    ensures { spelled call.now ≡ record { name = result.0.now; arguments = all_meant result.1 } }
{
    if let Some((word, id)) = object_of(call) {
        return (word.text(), Arguments::One(Argument::Id(id)));
    }
    if let Some((word, text)) = text_of(call) {
        return (word.text(), Arguments::One(Argument::Text(text)));
    }
    if let Some((word, first, second)) = pair_of(call) {
        return (word.text(), Arguments::Two(first, second));
    }
    if let Some((word, first, second, third)) = triple_of(call) {
        return (word.text(), Arguments::Three(first, second, third));
    }
    if let Some((name, number)) = number_of(call) {
        return (name, Arguments::One(Argument::Number(number)));
    }
    if let Some(name) = bare_of(call) {
        return (name, Arguments::None);
    }
    other(call)
}

/// The name and the argument of a call with a number alone.
fn number_of(call: &Call) -> Option<(&'static [u8], u64)>
    ensures { MatchOption result
        (is_number (spelled call.now).arguments ≡ false)
        (λ found. spelled call.now
        ≡ record { name = found.0.now; arguments = Number found.1 ∷ [] }) }
{
    Some(match call {
        Call::TaskDelay { ms } => (CallWord::TaskDelay.text(), u64::from(*ms)),
        Call::Advance { to } => (b"advance", *to),
        Call::Drain { n } => (b"drain", u64::from(*n)),
        Call::WaitEnd { part } => (b"wait_end", u64::from(*part)),
        Call::WaitAbandon { part } => (b"wait_abandon", u64::from(*part)),
        _ => return None,
    })
}

/// The creation of a task, or the opening of a socket.
fn other(call: &Call) -> (&'static [u8], Arguments<'_>)
    requires id { is_id_before 0 (spelled call.now).arguments ≡ false }
    requires text { is_text (spelled call.now).arguments ≡ false }
    requires number { is_number (spelled call.now).arguments ≡ false }
    requires bare { is_bare (spelled call.now).arguments ≡ false }
    requires two { (length (spelled call.now).arguments == 2) ≡ false }
    requires three { (length (spelled call.now).arguments == 3) ≡ false }
    ensures { spelled call.now ≡ record { name = result.0.now; arguments = all_meant result.1 } }
{
    match call {
        Call::TaskCreate {
            name,
            body,
            stack,
            priority,
        } => (
            CallWord::TaskCreate.text(),
            Arguments::Four(
                Argument::Text(name),
                Argument::Number(u64::from(*body)),
                Argument::Number(u64::from(*stack)),
                Argument::Number(u64::from(*priority)),
            ),
        ),
        Call::SocketOpen { kind } => (
            CallWord::SocketOpen.text(),
            Arguments::One(Argument::Kind(*kind)),
        ),
        _ => unreachable!(),
    }
}
