//! What the parts of semaphores answer, call by call.

mod binary;
mod counting;
