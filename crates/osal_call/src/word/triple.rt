//! The calls with three arguments.
ghost use Rattle.std.specs.Prelude.{◌≡◌, ◌==◌, ◌∷◌, [], false, length, MatchOption};
ghost use Rattle.osal_call.specs.Shapes.{is_id_before, meant};
ghost use Rattle.osal_call.specs.Signature.{spelled, of_word};

use super::CallWord;
use crate::Call;
use crate::argument::Argument::{
    self, Access, Flags, Id, Mode, Number, Offset, Streams, Text, Wait, Whence,
};

/// The word and the arguments of a call with three.
pub(crate) fn triple_of(call: &Call) -> Option<(CallWord, Argument, Argument, Argument)>
    ensures { MatchOption result ((length (spelled call.now).arguments == 3) ≡ false)
        (λ found. spelled call.now
        ≡ of_word found.0 (meant found.1 ∷ meant found.2 ∷ meant found.3 ∷ [])) }
{
    Some(match call {
        Call::QueueCreate { name, depth, size } => (
            CallWord::QueueCreate,
            Text(name),
            Number(u64::from(*depth)),
            Number(u64::from(*size)),
        ),
        Call::TimerAdd {
            name,
            timebase,
            handler,
        } => (
            CallWord::TimerAdd,
            Text(name),
            Id(*timebase),
            Number(u64::from(*handler)),
        ),
        Call::Mkfs {
            device,
            label,
            blocks,
        } => (
            CallWord::Mkfs,
            Text(device),
            Text(label),
            Number(u64::from(*blocks)),
        ),
        Call::Open {
            path,
            flags,
            access,
        } => (CallWord::Open, Text(path), Flags(*flags), Access(*access)),
        Call::SelectMulti {
            reads,
            writes,
            wait,
        } => (
            CallWord::SelectMulti,
            Streams(reads),
            Streams(writes),
            Wait(*wait),
        ),
        _ => return object_triple_of(call),
    })
}

/// The word and the arguments of a call with an identifier and two more.
fn object_triple_of(call: &Call) -> Option<(CallWord, Argument, Argument, Argument)>
    ensures { MatchOption result (is_id_before 2 (spelled call.now).arguments ≡ false)
        (λ found. spelled call.now
        ≡ of_word found.0 (meant found.1 ∷ meant found.2 ∷ meant found.3 ∷ [])) }
{
    Some(match call {
        Call::QueueGet { id, n, wait } => (
            CallWord::QueueGet,
            Id(*id),
            Number(u64::from(*n)),
            Wait(*wait),
        ),
        Call::TimerSet {
            id,
            start,
            interval,
        } => (
            CallWord::TimerSet,
            Id(*id),
            Number(u64::from(*start)),
            Number(u64::from(*interval)),
        ),
        Call::Read { id, n, wait } => (CallWord::Read, Id(*id), Number(u64::from(*n)), Wait(*wait)),
        Call::Lseek { id, offset, whence } => (
            CallWord::Lseek,
            Id(*id),
            Offset(*offset),
            Whence(*whence),
        ),
        Call::SocketSend { id, payload, port } => (
            CallWord::SocketSend,
            Id(*id),
            Text(payload),
            Number(u64::from(*port)),
        ),
        Call::SocketRecv { id, n, wait } => (
            CallWord::SocketRecv,
            Id(*id),
            Number(u64::from(*n)),
            Wait(*wait),
        ),
        Call::SelectOne { id, mode, wait } => {
            (CallWord::SelectOne, Id(*id), Mode(*mode), Wait(*wait))
        }
        _ => return None,
    })
}
