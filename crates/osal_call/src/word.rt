//! The calls that a line of an application may make, by the shape of their arguments, and their words.
ghost use Rattle.std.specs.Prelude.{◌≡◌};
ghost use Rattle.std.specs.List.{find, flat_map};
ghost use Rattle.std.specs.Str.{bytes_eq};
ghost use Rattle.osal_call.specs.Signature as words;

mod bare;
mod object;
mod pair;
mod text;
mod triple;

pub use bare::BareWord;
pub(crate) use bare::bare_of;
pub use object::ObjectWord;
pub(crate) use object::object_of;
pub(crate) use pair::pair_of;
pub use pair::{NumberWord, PathsWord, ValueWord, WaitWord};
pub(crate) use text::text_of;
pub use text::{NameWord, PathWord};
pub(crate) use triple::triple_of;

/// The calls that a line may make.
#[derive(Clone, Copy)]
pub enum CallWord {
    Object(ObjectWord),
    Name(NameWord),
    Wait(WaitWord),
    Value(ValueWord),
    Number(NumberWord),
    Path(PathWord),
    Paths(PathsWord),
    Bare(BareWord),
    TaskCreate,
    TaskExit,
    TaskDelay,
    QueueCreate,
    QueuePut,
    QueueGet,
    TimerAdd,
    TimerSet,
    Mkfs,
    Open,
    Read,
    Write,
    Lseek,
    SocketOpen,
    SocketAccept,
    SocketSend,
    SocketRecv,
    SocketShutdown,
    SelectOne,
    SelectMulti,
    ConsoleWrite,
}

impl CallWord {
    /// The word of the call, as lines and reports write it.
    pub fn text(self) -> &'static [u8]
        ensures { result.now ≡ words.word_text self }
    {
        match self {
            CallWord::Object(word) => word.text(),
            CallWord::Name(word) => word.text(),
            CallWord::Wait(word) => word.text(),
            CallWord::Value(word) => word.text(),
            CallWord::Number(word) => word.text(),
            CallWord::Path(word) => word.text(),
            CallWord::Paths(word) => word.text(),
            CallWord::Bare(word) => word.text(),
            CallWord::TaskCreate => b"task_create",
            CallWord::TaskExit => b"task_exit",
            CallWord::TaskDelay => b"task_delay",
            CallWord::QueueCreate => b"queue_create",
            CallWord::QueuePut => b"queue_put",
            CallWord::QueueGet => b"queue_get",
            CallWord::TimerAdd => b"timer_add",
            CallWord::TimerSet => b"timer_set",
            CallWord::Mkfs => b"mkfs",
            CallWord::Open => b"open",
            CallWord::Read => b"read",
            CallWord::Write => b"write",
            CallWord::Lseek => b"lseek",
            CallWord::SocketOpen => b"socket_open",
            CallWord::SocketAccept => b"socket_accept",
            CallWord::SocketSend => b"socket_send",
            CallWord::SocketRecv => b"socket_recv",
            CallWord::SocketShutdown => b"socket_shutdown",
            CallWord::SelectOne => b"select_one",
            CallWord::SelectMulti => b"select_multi",
            CallWord::ConsoleWrite => b"console_write",
        }
    }
}

/// Each call that is of none of the shapes.
const OTHERS: [CallWord; 21] = [
    CallWord::TaskCreate,
    CallWord::TaskExit,
    CallWord::TaskDelay,
    CallWord::QueueCreate,
    CallWord::QueuePut,
    CallWord::QueueGet,
    CallWord::TimerAdd,
    CallWord::TimerSet,
    CallWord::Mkfs,
    CallWord::Open,
    CallWord::Read,
    CallWord::Write,
    CallWord::Lseek,
    CallWord::SocketOpen,
    CallWord::SocketAccept,
    CallWord::SocketSend,
    CallWord::SocketRecv,
    CallWord::SocketShutdown,
    CallWord::SelectOne,
    CallWord::SelectMulti,
    CallWord::ConsoleWrite,
];

/// The call that a word names. It looks at each word at most.
pub fn call_word(text: &[u8]) -> Option<CallWord>
    ensures { result ≡ words.call_word text.now }
{
    word_in(
        &[
            &object::OBJECTS,
            &text::NAMES,
            &pair::WAITS,
            &pair::VALUES,
            &pair::NUMBERS,
            &text::PATHS,
            &pair::PATHS,
            &bare::BARE,
            &OTHERS,
        ],
        text,
    )
}

fn word_in(lists: &[&[CallWord]], text: &[u8]) -> Option<CallWord>
    ensures { result ≡ find (λ word. bytes_eq text.now (words.word_text word))
        (flat_map (λ list. list.now) lists.now) }
{
    for list in lists {
        if let Some(word) = word_among(list, text) {
            return Some(word);
        }
    }
    None
}

fn word_among(among: &[CallWord], text: &[u8]) -> Option<CallWord>
    ensures { result ≡ find (λ word. bytes_eq text.now (words.word_text word)) among.now }
{
    for word in among {
        if text == word.text() {
            return Some(*word);
        }
    }
    None
}
