//! From what is asked for to an application: the checks before a run, in their order.
ghost use Rattle.std.specs.Prelude.{◌≡◌, ◌<◌, ◌≤◌, ◌+◌, length, true, false, IfOk, Err, Some};
ghost use Rattle.osal_outside.specs.Causes.{RoseIf, WhereTold};
ghost use Rattle.osal_script.specs.Cost.{cost_of};
ghost use Rattle.osal_reading.specs.Reading.{reading_of};
ghost use Rattle.osal_make.specs.MakeText.{make_text};
ghost use Rattle.osal_run.specs.Request.{HasWorkers, asks_file};
ghost use Rattle.osal_run.specs.Asked.{asked};
ghost use Rattle.osal_run.specs.Checks.{cost_limit, check_cost, check_reading};
ghost use Rattle.osal_run.specs.Loading.{IsFound, ReadsPiece, ReadsFile, Loads, LoadsFile, LoadsName, loading_fails, read_fails, seen_bytes};
ghost use Rattle.osal_run.specs.declared.load.ReadFault.TheVariants as read_fault;

use crate::Refusal;
use crate::request::Request;
use osal_base::OutOfMemory;
use osal_make::make_app;
use osal_outside::{Opened, ReadFailed, Shelf};
use osal_reading::{ParseFault, parse};
use osal_script::App;
use std::alloc::Global;

/// The most bytes of an application's file.
const FILE_LIMIT: usize = 1_048_576;

/// The most that an application may cost.
const COST_LIMIT: u64 = 300_000;

/// How many bytes are asked for at once.
const CHUNK: usize = 8192;

/// Why a file was not read.
#[derive(Clone, Copy, Debug, PartialEq, Eq)]
pub enum ReadFault {
    /// It has more bytes than an application may have.
    Larger,
    /// The source failed.
    Source,
    /// There was no memory for it.
    Memory,
}

/// Why no application was loaded.
#[derive(Clone, Copy, Debug, PartialEq, Eq)]
pub enum Stop {
    /// A check has refused.
    Refused(Refusal),
    /// The source failed.
    Source,
    /// There was no memory to go on.
    Memory,
}

/// Reads one more piece of the open file behind what was read; 0 means its end.
fn read_piece<S: Shelf>(
    shelf: &mut S,
    bytes: &mut Vec<u8>,
    piece: &mut [u8],
) -> Result<usize, ReadFault>
    requires { 0 < length piece.old }
    ensures count { IfOk result (λ n. n ≤ length piece.old) }
    ensures grown { IfOk result (λ n. length bytes.new.items ≡ length bytes.old.items + n) }
    ensures told { IfOk result (λ n. WhereTold (S.content shelf.old) (S.content shelf.new) (ReadsPiece n bytes.old.items bytes.new.items)) }
    ensures larger { result ≡ Err read_fault.Larger → ⊥ }
    ensures cause { RoseIf (read_fails result) (S.faults shelf.old) (S.faults shelf.new) }
{
    let n = match shelf.read(piece) {
        Ok(n) => n,
        Err(ReadFailed) => return Err(ReadFault::Source),
    };
    match bytes.extend_from_slice(&piece[..n]) {
        Ok(()) => Ok(n),
        Err(_) => Err(ReadFault::Memory),
    }
}

/// Reads a piece of this length, or one byte where a longer piece would pass the limit.
fn read_within<S: Shelf>(
    shelf: &mut S,
    bytes: &mut Vec<u8>,
    chunk: &mut [u8],
) -> Result<usize, ReadFault>
    requires chunk { 0 < length chunk.old }
    requires room { length bytes.old.items ≤ 1048576 }
    ensures within { IfOk result (λ n. length bytes.new.items ≤ 1048577) }
    ensures grown { IfOk result (λ n. length bytes.new.items ≡ length bytes.old.items + n) }
    ensures told { IfOk result (λ n. WhereTold (S.content shelf.old) (S.content shelf.new) (ReadsPiece n bytes.old.items bytes.new.items)) }
    ensures larger { result ≡ Err read_fault.Larger → ⊥ }
    ensures cause { RoseIf (read_fails result) (S.faults shelf.old) (S.faults shelf.new) }
{
    if bytes.len() + chunk.len() <= FILE_LIMIT {
        read_piece(shelf, bytes, chunk)
    } else {
        let mut one = [0];
        read_piece(shelf, bytes, &mut one)
    }
}

/// Reads the open file to its end, at least one byte a turn, and at most one byte more than an application may have.
fn read_file<S: Shelf>(alloc: Global, shelf: &mut S) -> Result<Vec<u8>, ReadFault>
    ensures told { ReadsFile (S.content shelf.old) (seen_bytes result) }
    ensures short { IfOk result (λ bytes. length bytes.items ≤ 1048576) }
    ensures cause { RoseIf (read_fails result) (S.faults shelf.old) (S.faults shelf.new) }
{
    let mut bytes = Vec::new(alloc);
    let mut chunk = [0; CHUNK];
    while bytes.len() <= FILE_LIMIT {
        let n = read_within(shelf, &mut bytes, &mut chunk)?;
        if n == 0 {
            return Ok(bytes);
        }
    }
    Err(ReadFault::Larger)
}

/// Loads the application that is asked for: the opening, the reading, the size, the text, the cost. One that is made
/// leaves the shelf alone.
pub(crate) fn load<S: Shelf>(
    alloc: Global,
    request: Request<'_>,
    shelf: &mut S,
) -> Result<App, Stop>
    requires { HasWorkers (asked request) }
    ensures told { Loads (S.content shelf.old) (asked request.entry) result }
    ensures cost { IfOk result (λ app. cost_of app ≤ cost_limit) }
    ensures cause { RoseIf (loading_fails result) (S.faults shelf.old) (S.faults shelf.new) }
    ensures untouched { asks_file (Some (asked request.entry)) ≡ false → shelf.new ≡ shelf.old }
    ensures asked { loading_fails result ≡ true → asks_file (Some (asked request.entry)) ≡ true }
{
    match request {
        Request::File { name, .. } => load_file(alloc, name, shelf),
        Request::Make { workers } => make(alloc, workers),
    }
}

/// Makes the application for so many workers.
fn make(alloc: Global, workers: u32) -> Result<App, Stop>
    requires some { 1 ≤ workers }
    requires few { workers ≤ 60 }
    ensures found { IsFound result (check_reading (reading_of (make_text workers))) }
    ensures cost { IfOk result (λ app. cost_of app ≤ cost_limit) }
    ensures calm { loading_fails result ≡ false }
{
    match make_app(alloc, workers) {
        Ok(app) => Ok(app),
        Err(OutOfMemory) => Err(Stop::Memory),
    }
}

/// Loads the application in the file of that name.
fn load_file<S: Shelf>(alloc: Global, name: &str, shelf: &mut S) -> Result<App, Stop>
    ensures told { LoadsName (S.content shelf.old) name.now result }
    ensures cost { IfOk result (λ app. cost_of app ≤ cost_limit) }
    ensures cause { RoseIf (loading_fails result) (S.faults shelf.old) (S.faults shelf.new) }
{
    match shelf.open(alloc, name) {
        Ok(Opened::Ready) => load_open(alloc, shelf),
        Ok(Opened::NotFound) => Err(Stop::Refused(Refusal::Missing)),
        Ok(Opened::Failed) => Err(Stop::Source),
        Err(OutOfMemory) => Err(Stop::Memory),
    }
}

/// An application, unless it costs too much.
fn within_cost(app: App) -> Result<App, Stop>
    ensures check { IsFound result (check_cost app) }
    ensures cost { IfOk result (λ app. cost_of app ≤ cost_limit) }
    ensures calm { loading_fails result ≡ false }
{
    if COST_LIMIT < app.cost() {
        return Err(Stop::Refused(Refusal::Costly));
    }
    Ok(app)
}

/// Loads the application in the open file.
fn load_open<S: Shelf>(alloc: Global, shelf: &mut S) -> Result<App, Stop>
    ensures told { LoadsFile (S.content shelf.old) result }
    ensures cost { IfOk result (λ app. cost_of app ≤ cost_limit) }
    ensures cause { RoseIf (loading_fails result) (S.faults shelf.old) (S.faults shelf.new) }
{
    let bytes = match read_file(alloc, shelf) {
        Ok(bytes) => bytes,
        Err(ReadFault::Larger) => return Err(Stop::Refused(Refusal::Larger)),
        Err(ReadFault::Source) => return Err(Stop::Source),
        Err(ReadFault::Memory) => return Err(Stop::Memory),
    };
    match parse(alloc, &bytes) {
        Ok(app) => within_cost(app),
        Err(ParseFault::Bad(fault)) => Err(Stop::Refused(Refusal::Unread(fault))),
        Err(ParseFault::OutOfMemory) => Err(Stop::Memory),
    }
}
