//! One pass over a journal, with a draft for each segment.
ghost use Rattle.std.specs.Prelude.{◌≡◌, ◌++◌, [], ◌∷◌, map, OnOk, IfOk};
ghost use Rattle.std.specs.Ordering.{nat_cmp};
ghost use Rattle.std.specs.List.{AllByRecursion, list_any};
ghost use Rattle.std.specs.BTreeMap.{get};
ghost use Rattle.osal_runs.specs.Segments.{begun as begun_by, segments_of};
ghost use Rattle.osal_report.specs.Report.{is_stalled};
ghost use Rattle.osal_report.specs.Draft.{draft_of, joined_drafts, newest_place, IsCounted, IsIndex};

use crate::draft::Draft;
use crate::entry::begun;
use osal_base::{OsalId, OutOfMemory};
use osal_call::Entry;
use osal_script::{App, Body};
use std::alloc::Global;
use std::collections::BTreeMap;

/// The drafts in the order of their segments, and where the newest of each identifier stands.
#[derive(Drop)]
struct Drafts<'a> {
    list: Vec<Draft<'a>>,
    newest: BTreeMap<u64, usize>,
}

impl<'a> Drafts<'a> {
    /// Where the newest draft of a task stands, if it has one.
    fn place_of(&self, task: OsalId) -> Option<usize>
        requires { IsIndex (get nat_cmp self.now.newest) self.now.list.items }
        ensures { result ≡ newest_place self.now.list.items task }
    {
        self.newest.get(&u64::from(task.raw())).copied()
    }

    /// Reads an entry as one of its task, where the task has a draft.
    fn join(&mut self, entry: &Entry) -> Result<(), OutOfMemory>
        requires counted { AllByRecursion IsCounted self.old.list.items }
        requires index { IsIndex (get nat_cmp self.old.newest) self.old.list.items }
        ensures joined { OnOk result (self.new.list.items ≡ joined_drafts self.old.list.items entry.entry.now) }
        ensures index { OnOk result (IsIndex (get nat_cmp self.new.newest) self.new.list.items) }
    {
        let Some(place) = self.place_of(entry.task) else {
            return Ok(());
        };
        let draft = &mut self.list[place];
        draft.note(entry)?;
        Ok(())
    }

    /// Begins the draft of the task that an entry creates, where it creates one.
    fn begin(&mut self, alloc: Global, app: &'a App, entry: &'a Entry) -> Result<(), OutOfMemory>
        requires index { IsIndex (get nat_cmp self.old.newest) self.old.list.items }
        ensures begun { OnOk result (self.new.list.items
            ≡ self.old.list.items ++ map draft_of (begun_by app.now entry.entry.now)) }
        ensures index { OnOk result (IsIndex (get nat_cmp self.new.newest) self.new.list.items) }
    {
        let Some((name, body)) = begun(app, entry) else {
            return Ok(());
        };
        let id = entry.reply.number;
        self.newest.insert(id, self.list.len())?;
        add(&mut self.list, alloc, id, name, app, body)?;
        Ok(())
    }
}

/// Adds the draft of a task that was just created.
#[inline(never)] // wherever this is in line, room for a draft is cleared, and few entries create a task
fn add<'a>(
    list: &mut Vec<Draft<'a>>,
    alloc: Global,
    id: u64,
    name: &'a [u8],
    app: &'a App,
    body: &'a Body,
) -> Result<(), OutOfMemory>
    ensures { OnOk result (list.new.items ≡ list.old.items ++ draft_of
        (record { id = id; name = name.now; bodies = app.now.bodies; body = body.now; entries = [] }) ∷ []) }
{
    list.push(Draft::new(alloc, id, name, app, body))?;
    Ok(())
}

/// The drafts of a journal's segments, in order.
pub(crate) fn drafts_of<'a>(
    alloc: Global,
    app: &'a App,
    entries: &'a [Entry],
) -> Result<Vec<Draft<'a>>, OutOfMemory>
    ensures { IfOk result (λ drafts. drafts.items ≡ map draft_of (segments_of app.now entries.now)) }
{
    let mut drafts = Drafts {
        list: Vec::new(alloc),
        newest: BTreeMap::new(alloc),
    };
    for entry in entries {
        drafts.join(entry)?;
        drafts.begin(alloc, app, entry)?;
    }
    Ok(drafts.list)
}

/// Whether the script of a draft has an open wait.
pub(crate) fn some_stalled(drafts: &[Draft]) -> bool
    ensures { result ≡ list_any (λ draft. is_stalled draft.script.phase) drafts.now }
{
    drafts.iter().any(|draft| draft.is_stalled())
}
