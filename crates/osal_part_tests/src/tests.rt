//! What the parts answer, row by row.

mod condvars;
mod fixture;
mod mutexes;
mod objects;
mod queues;
mod semaphores;
mod tasks;
mod timers;
