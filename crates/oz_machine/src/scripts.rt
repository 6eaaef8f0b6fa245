//! The script of a program.
ghost use Rattle.std.specs.Prelude.{◌≡◌, [], option_copied};
ghost use Rattle.oz_base.specs.Lists.{holds_of};
ghost use Rattle.oz_semantics.specs.Store.{value_of};
ghost use Rattle.oz_semantics.specs.Configurations.{view};
ghost use Rattle.oz_semantics.specs.Search.{is_script, script_variable};

use builtins::arguments_of;
use oz_base::{Ident, SpaceName};
use oz_semantics::Value;
use space_core::Levels;

fn is_script(value: Option<&Value>) -> bool
    ensures { result ≡ holds_of is_script (option_copied value.entry) }
{
    match value {
        Some(Value::Procedure(procedure)) => procedure.get().parameters.len() == 1,
        Some(Value::Builtin(builtin)) => arguments_of(*builtin) == 1,
        Some(Value::Constant(_))
        | Some(Value::Name(_))
        | Some(Value::Record(_))
        | Some(Value::Cell(_))
        | Some(Value::Port(_))
        | Some(Value::Space(_))
        | None => false,
    }
}

/// The variable of `Script`.
pub fn script_variable() -> Ident
    ensures { result ≡ script_variable }
{
    Ident {
        space: SpaceName::top(),
        number: 0,
    }
}

/// Whether the top makes `Script` a procedure of one parameter.
pub fn has_script(levels: &Levels) -> bool
    ensures { result ≡ holds_of is_script (value_of (view levels.now []) script_variable) }
{
    match levels.place(&SpaceName::top()) {
        None => false,
        Some(place) => is_script(levels.store_at(place).value(&script_variable())),
    }
}
