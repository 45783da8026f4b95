//! A walk along the call lines of a body, with every repeat written out.
ghost use Rattle.std.specs.Prelude.{◌≡◌, ◌+◌, slice_get, option_copied, drop, Some};
ghost use Rattle.osal_script.specs.declared.item.Item.TheVariants as item;
ghost use Rattle.osal_script.specs.App.{first_of_levels, levels_of};
ghost use Rattle.osal_script.specs.Empty.{empty_end_from};
ghost use Rattle.osal_script.specs.Nesting.{IsNested};
ghost use Rattle.osal_script.specs.Walk.{lines_at, first_of, behind_first};
ghost use Rattle.osal_script.specs.Place.{IsPlace, IsSettled, IsPassed};

use crate::Item;
use osal_line::Line;
use std::marker::Model;

/// A repeat that is open: where its items start, and how many turns come behind this one.
#[derive(Clone, Copy)]
struct Turn {
    start: usize,
    left: u32,
}

/// A place among items, and the repeats that are open there, the innermost last.
#[derive(Clone, Copy)]
struct Place {
    at: usize,
    depth: usize,
    turns: [Turn; 4],
}

/// The call lines of a body that are still to come.
///
/// It enters only repeats in which a call line stands, so the next line is found in a time by the number of items,
/// however many turns the other repeats have.
#[derive(Drop)]
pub(crate) struct Walk<'a> {
    items: &'a [Item],
    place: Place,
}

impl<'a> Model for Walk<'a> {
    ghost use Rattle.std.specs.Prelude.{List};
    ghost use Rattle.osal_line.specs.declared.line.Line.{Line};
    ghost use Rattle.osal_script.specs.Walk.{lines_at};
    ghost use Rattle.osal_script.specs.Place.{IsSettled};

    ghost Value = { List Line };

    ghost view = { λ a. lines_at a.items.now a.place };

    ghost invariant = { λ a. IsSettled a.items.now a.place };
}

impl<'a> Walk<'a> {
    /// A walk from the start of the items.
    pub fn new(items: &'a [Item]) -> Walk<'a>
        requires { IsNested items.now }
        ensures { result ≡ first_of_levels (levels_of items.now) }
    {
        let mut place = Place {
            at: 0,
            depth: 0,
            turns: [Turn { start: 0, left: 0 }; 4],
        };
        settle(items, &mut place);
        Walk { items, place }
    }

    /// The line that comes next, if there is one.
    pub fn line(&self) -> Option<&'a Line>
        ensures { option_copied result ≡ first_of self.now }
    {
        line_at(self.items, &self.place)
    }

    /// Goes past the line that comes next, if there is one.
    pub fn pass(&mut self)
        ensures { self.new ≡ behind_first self.old }
    {
        pass_line(self.items, &mut self.place);
    }
}

/// The line at a place.
fn line_at<'a>(items: &'a [Item], place: &Place) -> Option<&'a Line>
    requires { IsSettled items.now place.now }
    ensures { option_copied result ≡ first_of (lines_at items.now place.now) }
{
    match items.get(place.at) {
        Some(Item::Call(line)) => Some(line),
        Some(Item::Repeat { .. }) | Some(Item::End) | None => None,
    }
}

/// Goes behind the line at a place, where there is one.
fn pass_line(items: &[Item], place: &mut Place)
    requires { IsSettled items.now place.old }
    ensures within { IsSettled items.now place.new }
    ensures lines { lines_at items.now place.new ≡ behind_first (lines_at items.now place.old) }
{
    match items.get(place.at) {
        Some(Item::Call(_)) => {
            place.at += 1;
            settle(items, place);
        }
        Some(Item::Repeat { .. }) | Some(Item::End) | None => {}
    }
}

/// Goes on to the next call line, or behind the last item. It skips the repeats in which no call line stands.
fn settle(items: &[Item], place: &mut Place)
    requires { IsPlace items.now place.old }
    ensures within { IsSettled items.now place.new }
    ensures lines { lines_at items.now place.new ≡ lines_at items.now place.old }
{
    loop {
        match items.get(place.at) {
            Some(Item::Repeat { count }) => pass_head(items, place, *count),
            Some(Item::End) => pass_end(items, place),
            Some(Item::Call(_)) | None => return,
        }
    }
}

/// Goes behind the repeat at a place where no call line stands in it, or else behind its head.
fn pass_head(items: &[Item], place: &mut Place, count: u32)
    requires place_in { IsPlace items.now place.old }
    requires here { slice_get items.now place.old.at ≡ Some (item.Repeat count) }
    ensures { IsPassed items.now place.old place.new }
{
    match empty_end(items, place.at + 1) {
        Some(end) => place.at = end,
        None => enter(items, place, count),
    }
}

/// The place behind the end of the repeat whose items begin at a place, where no call line stands in it.
fn empty_end(items: &[Item], start: usize) -> Option<usize>
    ensures { result ≡ empty_end_from start 0 (drop start items.now) }
{
    let mut at = start;
    let mut depth: usize = 0;
    while at < items.len() {
        match &items[at] {
            Item::Call(_) => return None,
            Item::Repeat { .. } => depth += 1,
            Item::End if depth == 0 => return Some(at + 1),
            Item::End => depth -= 1,
        }
        at += 1;
    }
    None
}

/// Goes behind the head of the repeat at a place.
fn enter(items: &[Item], place: &mut Place, count: u32)
    requires place_in { IsPlace items.now place.old }
    requires here { slice_get items.now place.old.at ≡ Some (item.Repeat count) }
    ensures { IsPassed items.now place.old place.new }
{
    place.turns[place.depth] = Turn {
        start: place.at + 1,
        left: count - 1,
    };
    place.at += 1;
    place.depth += 1;
}

/// Goes on from the end at a place: to the start of the repeat's next turn, or to what follows the repeat.
fn pass_end(items: &[Item], place: &mut Place)
    requires place_in { IsPlace items.now place.old }
    requires here { slice_get items.now place.old.at ≡ Some item.End }
    ensures { IsPassed items.now place.old place.new }
{
    let turn = place.turns[place.depth - 1];
    if turn.left == 0 {
        place.at += 1;
        place.depth -= 1;
        return;
    }
    place.turns[place.depth - 1] = Turn {
        start: turn.start,
        left: turn.left - 1,
    };
    place.at = turn.start;
}
