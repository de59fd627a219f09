ghost use Rattle.std.specs.Prelude.{◌≡◌};
ghost use Rattle.wasm_imm.specs.BranchTables.{numbers_of};
ghost use Rattle.wasm_typing.specs.Rules.{at};
ghost use Rattle.wasm_typing.specs.Steps.{labels_of};
ghost use Rattle.wasm_check_control.specs.State.{Answers, by_rule};
ghost use Rattle.wasm_check_control.specs.Switches.{label_fits, targets_fit, switch};

use crate::checker::Checker;
use wasm_check_control::{Control, ModuleContext, count_of};
use wasm_imm::{BrTable, control_laws};
use wasm_typing::ValueType;

/// Returns whether the frame has the operands of a label, which are `count`.
fn target_fits<M: ModuleContext>(
    control: &Control<'_>,
    context: &M,
    depth: u32,
    count: usize,
) -> bool
    ensures { result ≡ label_fits (M.environment context.now).order (at (labels_of control.now) depth) control.now count }
{
    match control.label(depth) {
        Some(label) => control.fits(context, label.one, label.many, count),
        None => false,
    }
}

fn targets_fit<M: ModuleContext>(
    control: &Control<'_>,
    context: &M,
    table: &BrTable<'_>,
    count: usize,
) -> bool
    ensures { result ≡ targets_fit (M.environment context.now).order (labels_of control.now) (numbers_of table.now.targets) control.now count }
{
    control_laws::target_numbers();
    control_laws::returned_targets();
    for target in table.targets() {
        if let Ok(depth) = target {
            if !target_fits(control, context, depth, count) {
                return false;
            }
        }
    }
    true
}

/// Branch tables.
impl<'m, M: ModuleContext> Checker<'m, M> {
    /// `br_table`. The operands are tested in their place, so that no list of them is allocated.
    pub(crate) fn branch_table(&mut self, table: &BrTable<'_>) -> bool
        ensures same { self.new.context ≡ self.old.context }
        ensures steps { Answers result (by_rule (M.environment self.old.context.now).order (switch (labels_of self.old.control) (numbers_of table.now.targets) table.now.default) self.old.control) self.new.control }
    {
        if !self.control.expect(self.context, ValueType::I32) {
            return false;
        }
        let Some(label) = self.control.label(table.default()) else {
            return false;
        };
        let count = count_of(label.one, label.many);
        if !self
            .control
            .fits(self.context, label.one, label.many, count)
        {
            return false;
        }
        if !targets_fit(&self.control, self.context, table, count) {
            return false;
        }
        self.control.jump();
        true
    }
}
