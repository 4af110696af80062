// Whether an axis commutes with all rotations of a part of a list: what runs and layers ask.
#![tactic(auto)]

ghost use Rattle.std.specs.Prelude.{◌≡◌, ◌-◌};
ghost use Rattle.model.specs.Items.{rot};
ghost use Rattle.model.specs.Layering.{commutes_with_all};
ghost use Rattle.axes.specs.Held.{stored_axes};
ghost use Rattle.items.specs.View.{rots_in};
ghost use Rattle.commuting.specs.Commuting.{CommutesPre};
ghost use Rattle.commuting.specs.Blocking.{Blocking};

use axes::StoredAxes;

// The first of the rotations of list b (rows b, b + 1 and b + 2) from a place up to an end that anticommutes with an axis; the end, if
// none does.
pub fn first_blocking(axes: StoredAxes, b: usize, from: usize, end: usize, axis: usize) -> usize
    requires { CommutesPre axes.sizes axes.numbers.now b from end axis }
    ensures { Blocking axes.entry.sizes axes.entry.words.now axes.entry.numbers.now b from end axis result }
{
    (from..end)
        .find(|&i| {
            let other = items::axis_at(axes.numbers, axes.sizes.u, b, i) as usize;
            axes.anticommute(other, axis)
        })
        .unwrap_or(end)
}

// Whether an axis commutes with all of them.
pub fn commutes_with_all(axes: StoredAxes, b: usize, from: usize, end: usize, axis: usize) -> bool
    requires { CommutesPre axes.sizes axes.numbers.now b from end axis }
    ensures { result ≡ commutes_with_all axes.entry.sizes.l (stored_axes axes.entry.sizes axes.entry.words.now)
        (rots_in axes.entry.numbers.now axes.entry.sizes.u b from (end - from)) (rot axis 0) }
{
    first_blocking(axes, b, from, end, axis) == end
}
