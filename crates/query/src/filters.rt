// The filters: pass all, a set of closed blocks, a border.
ghost use Rattle.std.specs.Prelude.{false, if◌then◌else◌};
ghost use Rattle.walk.specs.declared.event.Control.TheVariants.{Continue, Prune, Break};
ghost use Rattle.graph.specs.Among.{among};

use crate::filter::Filter;
use graph::among::is_among;
use walk::event::Control;

// Lets every block pass.
#[derive(Clone, Copy)]
pub struct PassAll {}

impl Filter for PassAll {
    ghost meaning = { λ _ _. Continue };

    fn filter(&self, _block: u32) -> Control<bool> {
        Control::Continue
    }
}

// Prunes the steps that leave one of the blocks. A type of its own beside Border: the reply is all that either says.
#[derive(Clone, Copy)]
pub struct ClosedBlocks<'a> {
    pub blocks: &'a [u32],
}

impl<'a> Filter for ClosedBlocks<'a> {
    ghost meaning = { λ f b. (if among b f.blocks.now then Prune else Continue) };

    fn filter(&self, block: u32) -> Control<bool> {
        if is_among(block, self.blocks) {
            Control::Prune
        } else {
            Control::Continue
        }
    }
}

// Stops with no at a step that leaves one of the blocks.
#[derive(Clone, Copy)]
pub struct Border<'a> {
    pub blocks: &'a [u32],
}

impl<'a> Filter for Border<'a> {
    ghost meaning = { λ f b. (if among b f.blocks.now then Break false else Continue) };

    fn filter(&self, block: u32) -> Control<bool> {
        if is_among(block, self.blocks) {
            Control::Break(false)
        } else {
            Control::Continue
        }
    }
}
