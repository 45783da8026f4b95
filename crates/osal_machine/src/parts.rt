//! Each part with the calls that are its own.

mod bin_sems;
mod condvars;
mod console;
mod count_sems;
mod io;
mod mutexes;
mod queues;
mod tasks;
mod time;
