//! What holds of the items of bodies, as clauses of functions that change nothing.
ghost use Rattle.std.specs.Prelude.{◌≡◌, ◌≤◌};
ghost use Rattle.osal_price.specs.Price.{Prices};
ghost use Rattle.osal_script.specs.App.{first_of_levels, levels_of};
ghost use Rattle.osal_script.specs.Cost.{first_cost, level_costs};
ghost use Rattle.osal_script.specs.Nesting.{IsNested};
ghost use Rattle.osal_nested.specs.Nested.{Nested, IsNestingOf, HasTurns, items_of, lines_in, cost_in, depth_in};

use osal_script::Body;

/// The items of each body nest: the lines and the cost of the body are those of its nesting.
pub fn bodies_nest(body: &Body)
    ensures { (nested : Nested) × IsNestingOf nested body.now }
{
    let _items = body.items();
}

/// Items nest in one way only.
pub fn nesting_is_unique()
    ensures { (one other : Nested) → items_of one ≡ items_of other → one ≡ other }
{}

/// What nests as deep as a body may, each repeat with a turn, is what a body may have as its items.
pub fn nested_items_are_those_of_bodies()
    ensures { (nested : Nested) → depth_in nested ≤ 4 → HasTurns nested → IsNested (items_of nested) }
{}

/// The lines and the costs of a flat list are those of its nesting.
pub fn lines_and_costs_follow()
    ensures lines { (nested : Nested) → first_of_levels (levels_of (items_of nested)) ≡ lines_in nested }
    ensures costs { (prices : Prices) (nested : Nested)
        → first_cost (level_costs prices (items_of nested)) ≡ cost_in prices nested }
{}
