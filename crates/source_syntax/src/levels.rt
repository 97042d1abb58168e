//! The operators counted in open levels of brackets.

ghost use Rattle.std.specs.Prelude.{◌≡◌, ◌≤◌, OnOk};
ghost use Rattle.source_syntax.specs.Limits as spec;
ghost use Rattle.source_syntax.specs.Levels.{seen, IsLevels};

use crate::effect::Effect;
use aen_base::{List, NoMem};
use std::alloc::Global;

/// The counts of the open levels, and their depth.
#[derive(Drop)]
pub(crate) struct Levels {
    pub(crate) innermost: u64,
    /// From the outermost level inward.
    pub(crate) around: List<u64>,
    /// Open brackets and all counts.
    pub(crate) depth: u64,
}

impl Levels {
    /// The text outside all brackets.
    pub(crate) fn new(alloc: Global) -> Levels
        ensures counts { seen result ≡ spec.outside }
        ensures sums { IsLevels result }
    {
        Levels {
            innermost: 0,
            around: List::new(alloc),
            depth: 0,
        }
    }

    /// Sees a lexeme with this effect. The only error is want of memory.
    pub(crate) fn see(&mut self, effect: Effect) -> Result<(), NoMem>
        requires sums { IsLevels self.old }
        requires bound { self.old.depth ≤ 250 }
        ensures counts { OnOk result (seen self.new ≡ spec.levelled (seen self.old) effect) }
        ensures sums { OnOk result (IsLevels self.new) }
    {
        match effect {
            Effect::Opens => {
                self.around.push(self.innermost)?;
                self.innermost = 0;
                self.depth += 1;
            }
            Effect::Closes => {
                if let Some(outer) = self.around.pop() {
                    self.depth -= self.innermost + 1;
                    self.innermost = outer;
                }
            }
            Effect::Resets => {
                self.depth -= self.innermost;
                self.innermost = 0;
            }
            Effect::Counts => {
                self.innermost += 1;
                self.depth += 1;
            }
            Effect::Nothing => {}
        }
        Ok(())
    }
}
