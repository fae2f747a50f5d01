// The core steps of a list of items, in order.

ghost use Rattle.std.specs.Prelude.{◌≡◌, ◌≤◌, ◌<◌, length, map};
ghost use Rattle.schedule_model.specs.CoreSteps.{core_steps, item_steps};
ghost use Rattle.power_trace.specs.Items.{item_of};
ghost use Rattle.power_trace.specs.ItemSteps.{steps_left};
ghost use Rattle.power_trace.specs.Filling.{Fills, FillsSome};

use crate::draw::Draw;
use crate::items::StepItem;
use crate::sequence::Sequence;
use std::marker::Model;

/// The steps that are left of an item.
#[derive(Debug, Drop)]
pub(crate) enum ItemSteps<'a> {
    Steps(Sequence<'a>),
    Mix(Draw),
}

impl<'a> ItemSteps<'a> {
    /// All steps of an item.
    fn new(item: &'a StepItem, cores: u8) -> ItemSteps<'a>
        requires { 1 ≤ cores }
        ensures { steps_left result ≡ item_steps cores (item_of item.entry.now) }
    {
        match item {
            StepItem::Steps {
                cores: order,
                times,
            } => ItemSteps::Steps(Sequence::new(order.as_slice(), *times)),
            StepItem::Mix { seed, count } => ItemSteps::Mix(Draw::new(*seed, cores, *count)),
        }
    }

    /// The first steps, as many as there is room for. How many.
    fn fill(&mut self, room: &mut [u8]) -> usize
        ensures { Fills (steps_left self.old) room.old room.new result (steps_left self.new) }
    {
        match self {
            ItemSteps::Steps(sequence) => sequence.fill(room),
            ItemSteps::Mix(draw) => draw.fill(room),
        }
    }
}

/// The steps that are left of some items, which contracts see as the list of their cores.
#[derive(Debug, Drop)]
pub(crate) struct CoreSteps<'a> {
    cores: u8,
    // what is left of the item under way
    item: ItemSteps<'a>,
    // the items after it
    items: &'a [StepItem],
}

impl<'a> Model for CoreSteps<'a> {
    ghost use Rattle.std.specs.Prelude.{ℕ, List, ◌++◌, ◌≤◌, map};
    ghost use Rattle.schedule_model.specs.CoreSteps.{core_steps};
    ghost use Rattle.power_trace.specs.Items.{item_of};
    ghost use Rattle.power_trace.specs.ItemSteps.{steps_left};

    ghost Value = { List ℕ };

    ghost view = { λ a. steps_left a.item ++ core_steps a.cores (map item_of a.items.now) };

    ghost invariant = { λ a. 1 ≤ a.cores };
}

impl<'a> CoreSteps<'a> {
    /// All steps of some items.
    pub(crate) fn new(cores: u8, items: &'a [StepItem]) -> CoreSteps<'a>
        requires { 1 ≤ cores }
        ensures { result ≡ core_steps cores (map item_of items.entry.now) }
    {
        CoreSteps {
            cores,
            item: ItemSteps::Steps(Sequence::new(&[], 0)),
            items,
        }
    }

    /// The first steps, at least one if there is one, and at most as many as there is room for. How many.
    pub(crate) fn fill(&mut self, room: &mut [u8]) -> usize
        requires { 0 < length room.old }
        ensures { FillsSome self.old room.old room.new result self.new }
    {
        'items: loop {
            let count = self.item.fill(room);
            if count > 0 {
                return count;
            }
            let Some((first, later)) = self.items.split_first() else {
                return 0;
            };
            self.item = ItemSteps::new(first, self.cores);
            self.items = later;
        }
    }
}
