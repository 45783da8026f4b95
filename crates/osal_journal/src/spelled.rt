//! How a call is spelled.
ghost use Rattle.std.specs.Prelude.{◌≡◌, ◌++◌, OnOk};
ghost use Rattle.osal_journal.specs.Spelled.{call_text};

use crate::argument::push_arguments;
use osal_base::OutOfMemory;
use osal_call::{Arguments, Call, spelling_of};
use osal_spelling::push_bytes;

/// Appends the name of a call, and its arguments in their order.
pub(crate) fn push_call(out: &mut Vec<u8>, call: &Call) -> Result<(), OutOfMemory>
    ensures { OnOk result (out.new.items ≡ out.old.items ++ call_text call.now) }
{
    let (name, arguments) = spelling_of(call);
    push_bytes(out, name)?;
    match arguments {
        Arguments::None => Ok(()),
        Arguments::One(first) => push_arguments(out, &[first]),
        Arguments::Two(first, second) => push_arguments(out, &[first, second]),
        Arguments::Three(first, second, third) => push_arguments(out, &[first, second, third]),
        Arguments::Four(first, second, third, fourth) => {
            push_arguments(out, &[first, second, third, fourth])
        }
    }
}
