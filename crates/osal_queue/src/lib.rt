//! Message queues: the calls of OSAL's `osapi-queue.h`.
#![tactic(auto)]

mod messages;
mod part;
mod queue;
mod waiting;

pub use part::QueuePart;
pub use queue::Queue;
