// Statements: their forms, and the names in them.

ghost use Rattle.std.specs.Prelude.{◌≡◌, ◌++◌, ℕ, List, option_map, length, take, vec_len, OnOk};
ghost use Rattle.tac_lines.specs.code.Formed.{has_only_variables as only_variables_in, has_role as has_role_in};
ghost use Rattle.tac_lines.specs.Forms.{cells_of, in_slot, paired, statement_row};
ghost use Rattle.tac_lines.specs.code.Roles.{role_test};
ghost use Rattle.tac_lines.specs.code.Views.{form_slots, slot_view, slots_view, tokens_view};

use crate::OutOfMemory;
use crate::form::{Form, Slot, Walk, follow, form_of, slots_of};
use crate::formed::Statement;
use crate::token::Token;

/// What a name in a statement stands for. A place for a variable may hold a number.
#[derive(Clone, Copy)]
pub enum Role {
    Label,
    Callee,
    Variable,
}

/// The form that the tokens of a statement have, where they are the whole of one; none of no tokens.
pub fn statement_form(tokens: &[Token]) -> Option<Form>
    ensures { (text : List ℕ)
        → statement_row (tokens_view text tokens.now) ≡ option_map (λ form. (form, form_slots form (length tokens.now))) result }
{
    if tokens.is_empty() {
        return None;
    }
    let form = form_of(tokens);
    match follow(slots_of(form, tokens.len()), tokens) {
        Walk::Whole => Some(form),
        _ => None,
    }
}

/// Whether what stands in such a place has that role.
fn plays(slot: Slot, role: Role) -> bool
    ensures { role_test role (slot_view slot) ≡ result }
{
    match role {
        Role::Label => matches!(slot, Slot::Label),
        Role::Callee => matches!(slot, Slot::Callee),
        Role::Variable => matches!(slot, Slot::Variable | Slot::Operand),
    }
}

/// Appends the tokens that stand in a place of that role; they fill the places from the first on.
fn append_filled(
    found: &mut Vec<Token>,
    role: Role,
    slots: &[Slot],
    tokens: &[Token],
) -> Result<(), OutOfMemory>
    ensures kept { take (vec_len found.old) found.new.items ≡ found.old.items }
    ensures appended { OnOk result ((text : List ℕ) → tokens_view text found.new.items ≡ tokens_view text found.old.items
        ++ in_slot (role_test role) (paired (slots_view slots.now) (tokens_view text tokens.now))) }
{
    match (slots.split_first(), tokens.split_first()) {
        (Some((slot, slots)), Some((token, tokens))) => {
            if plays(*slot, role) {
                found.push(*token)?;
            }
            append_filled(found, role, slots, tokens)
        }
        _ => Ok(()),
    }
}

/// Whether some place of the form is for a label.
fn has_label(form: Form) -> bool
    ensures { result ≡ has_role_in (Role.Label) form }
{
    match form {
        Form::Copy => false,
        Form::Unary => false,
        Form::Binary => false,
        Form::Jump => true,
        Form::Test => true,
        Form::NegatedTest => true,
        Form::Comparison => true,
        Form::Call => false,
        Form::Return => false,
        Form::Read => false,
        Form::Print => false,
        Form::Skip => false,
    }
}

/// Whether some place of the form is for a callee.
fn has_callee(form: Form) -> bool
    ensures { result ≡ has_role_in (Role.Callee) form }
{
    match form {
        Form::Copy => false,
        Form::Unary => false,
        Form::Binary => false,
        Form::Jump => false,
        Form::Test => false,
        Form::NegatedTest => false,
        Form::Comparison => false,
        Form::Call => true,
        Form::Return => false,
        Form::Read => false,
        Form::Print => false,
        Form::Skip => false,
    }
}

/// Whether some place of the form may have a variable.
fn has_variable(form: Form) -> bool
    ensures { result ≡ has_role_in (Role.Variable) form }
{
    match form {
        Form::Copy => true,
        Form::Unary => true,
        Form::Binary => true,
        Form::Jump => false,
        Form::Test => true,
        Form::NegatedTest => true,
        Form::Comparison => true,
        Form::Call => false,
        Form::Return => false,
        Form::Read => true,
        Form::Print => true,
        Form::Skip => false,
    }
}

/// Whether some place of the form has that role.
pub fn has_role(form: Form, role: Role) -> bool
    ensures { result ≡ has_role_in role form }
{
    match role {
        Role::Label => has_label(form),
        Role::Callee => has_callee(form),
        Role::Variable => has_variable(form),
    }
}

/// Whether all names in the form are variables.
pub fn has_only_variables(form: Form) -> bool
    ensures { result ≡ only_variables_in form }
{
    match form {
        Form::Copy => true,
        Form::Unary => true,
        Form::Binary => true,
        Form::Jump => false,
        Form::Test => false,
        Form::NegatedTest => false,
        Form::Comparison => false,
        Form::Call => false,
        Form::Return => true,
        Form::Read => true,
        Form::Print => true,
        Form::Skip => true,
    }
}

/// Appends the statement's tokens that stand in a place of that role; none where they are no statement.
/// What is found already stays, also where memory runs out.
pub fn cells(
    found: &mut Vec<Token>,
    role: Role,
    statement: Statement<'_>,
) -> Result<(), OutOfMemory>
    ensures kept { take (vec_len found.old) found.new.items ≡ found.old.items }
    ensures appended { OnOk result ((text : List ℕ) → tokens_view text found.new.items ≡ tokens_view text found.old.items
        ++ in_slot (role_test role) (cells_of (tokens_view text statement.entry.tokens.now))) }
{
    match statement.form() {
        None => Ok(()),
        Some(form) => {
            if has_role(form, role) {
                let slots = slots_of(form, statement.tokens.len());
                append_filled(found, role, slots, statement.tokens)
            } else {
                Ok(())
            }
        }
    }
}
