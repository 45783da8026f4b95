//! Makes an application of a number of workers.
ghost use Rattle.std.specs.Prelude.{◌≡◌, ◌≤◌, Ok, IfOk};
ghost use Rattle.osal_reading.specs.Reading.{reading_of};
ghost use Rattle.osal_script.specs.Cost.{cost_of};
ghost use Rattle.osal_make.specs.Made.{made_bodies};
ghost use Rattle.osal_make.specs.MakeText.{make_text};

use crate::first::main_body;
use crate::worker::worker_body;
use osal_base::OutOfMemory;
use osal_script::{App, Body};
use std::alloc::Global;

/// The most workers of an application that is made.
pub const WORKER_LIMIT: u32 = 60;

/// The application of so many workers, each of which passes a thousand messages through a queue of its own.
///
/// It is the one that `make_text` spells, and is built without that text; it costs its lines.
/// The only error is that memory ran out.
pub fn make_app(alloc: Global, workers: u32) -> Result<App, OutOfMemory>
    requires some { 1 ≤ workers }
    requires few { workers ≤ 60 }
    ensures reads { IfOk result (λ app. reading_of (make_text workers) ≡ Ok app) }
    ensures cost { IfOk result (λ app. cost_of app ≤ 300000) }
{
    let bodies = bodies_for(alloc, workers)?;
    Ok(App::new(bodies))
}

/// The first body and those of the workers.
fn bodies_for(alloc: Global, workers: u32) -> Result<Vec<Body>, OutOfMemory>
    requires some { 1 ≤ workers }
    requires few { workers ≤ 60 }
    ensures { IfOk result (λ bodies. bodies.items ≡ made_bodies workers) }
{
    let mut bodies = Vec::new(alloc);
    bodies.push(main_body(alloc, workers)?)?;
    for worker in 1..=workers {
        bodies.push(worker_body(alloc, workers, worker)?)?;
    }
    Ok(bodies)
}
