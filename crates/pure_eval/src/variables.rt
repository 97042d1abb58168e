ghost use Rattle.std.specs.Prelude.{◌≡◌, ℕ, [], OnOk, IfOk};
ghost use Rattle.std.specs.Option.{option_copied};
ghost use Rattle.text_meaning.specs.Environment as spec;
ghost use Rattle.pure_eval.specs.Ascending.{Ascends};

use crate::copies::copy_value;
use aen_base::{List, NoMem, at};
use pure_ast::PValue;
use std::alloc::Global;
use std::marker::Model;

/// Variables and their values, the newest last. While each new variable has a greater number than
/// all before it, a value is found by its number; else the newest one is looked for from the end.
#[derive(Drop)]
pub(crate) struct Variables {
    entries: List<(u32, PValue)>,
    /// Whether the numbers ascend.
    ascending: bool,
    /// While they do, it is above all of them.
    bound: u64,
}

impl Model for Variables {
    ghost use Rattle.std.specs.Prelude.{◌≡◌, true};
    ghost use Rattle.std.specs.Coded.{coded_list, coded×, coded_ℕ};
    ghost use Rattle.pure_ast.specs.Values.{coded_pvalue};
    ghost use Rattle.text_meaning.specs.Environment.{Environment};
    ghost use Rattle.pure_eval.specs.Ascending.{Ascends};

    ghost Value = { Environment };

    ghost coded = { coded_list (coded× coded_ℕ coded_pvalue) };

    ghost view = { λ s. s.entries };

    ghost invariant = { λ s. s.ascending ≡ true → Ascends 0 s.bound s.entries };
}

impl Variables {
    /// No variables.
    pub(crate) fn new(alloc: Global) -> Variables
        ensures { result ≡ [] }
    {
        Variables {
            entries: List::new(alloc),
            ascending: true,
            bound: 0,
        }
    }

    /// Gives a variable a value. The only error is want of memory.
    pub(crate) fn push(&mut self, variable: u32, value: PValue) -> Result<(), NoMem>
        ensures { OnOk result (self.new ≡ spec.with_value self.old variable value) }
    {
        let number = u64::from(variable);
        self.entries.push((variable, value))?;
        if self.ascending && self.bound <= number {
            self.bound = number + 1;
        } else {
            self.ascending = false;
        }
        Ok(())
    }

    /// A copy of the variables. The only error is want of memory.
    pub(crate) fn try_clone(&self, alloc: Global) -> Result<Variables, NoMem>
        ensures { IfOk result (λ v. v ≡ self.now) }
    {
        let mut entries = List::new(alloc);
        for entry in self.entries.as_slice() {
            entries.push((entry.0, copy_value(alloc, &entry.1)?))?;
        }
        Ok(Variables {
            entries,
            ascending: self.ascending,
            bound: self.bound,
        })
    }

    /// The newest value of a variable; None exactly where it has none.
    pub(crate) fn get(&self, variable: u32) -> Option<&PValue>
        ensures { option_copied result ≡ spec.lookup self.now variable }
    {
        let entries = self.entries.as_slice();
        if self.ascending {
            return found(entries, variable);
        }
        newest(entries, variable)
    }
}

/// The newest value of a variable, looked for from the end.
fn newest(entries: &[(u32, PValue)], variable: u32) -> Option<&PValue>
    ensures { option_copied result ≡ spec.lookup entries.now variable }
{
    let mut left = entries.len();
    while left > 0 {
        left -= 1;
        let Some(entry) = at(entries, left) else {
            return None;
        };
        if entry.0 == variable {
            return Some(&entry.1);
        }
    }
    None
}

/// The value of a variable among entries whose numbers ascend. Variables are usually numbered in
/// order, so the place of its number is tried first, and then halves.
fn found(entries: &[(u32, PValue)], variable: u32) -> Option<&PValue>
    requires { (bound : ℕ) × Ascends 0 bound entries.now }
    ensures { option_copied result ≡ spec.lookup entries.now variable }
{
    match at(entries, variable as usize) {
        Some(entry) if entry.0 == variable => Some(&entry.1),
        _ => halved(entries, variable),
    }
}

/// The value of a variable among entries whose numbers ascend, by halves.
fn halved(entries: &[(u32, PValue)], variable: u32) -> Option<&PValue>
    requires { (bound : ℕ) × Ascends 0 bound entries.now }
    ensures { option_copied result ≡ spec.lookup entries.now variable }
{
    let mut low = 0;
    let mut high = entries.len();
    while low < high {
        let middle = low + (high - low) / 2;
        let Some(entry) = at(entries, middle) else {
            return None;
        };
        if entry.0 == variable {
            return Some(&entry.1);
        }
        if entry.0 < variable {
            low = middle + 1;
        } else {
            high = middle;
        }
    }
    None
}
