//! Whether a space may be a value, and whether a by-need computation may begin.
ghost use Rattle.std.specs.Prelude.{◌≡◌, true, false};
ghost use Rattle.std.specs.List.{list_any, list_all};
ghost use Rattle.need_laws.specs.Needs.{has_triggers};
ghost use Rattle.view_laws.specs.Spaceless.{has_spaces};
ghost use Rattle.space_core.specs.Plain.{is_plain};
ghost use Rattle.space_core.specs.Shown.{shown_all, IsSound};
ghost use Rattle.space_core.specs.declared.level.Level.{Level};

use crate::level::Level;

fn knows_space(level: &Level) -> bool
    ensures { result ≡ level.now.knows_space }
{
    level.knows_space
}

fn any_knows(levels: &[Level]) -> bool
    ensures { result ≡ list_any (λ (l : Level). l.knows_space) levels.now }
{
    levels.iter().any(knows_space)
}

/// Whether it is noted of a space that it was told of a space as a value.
pub fn has_spaces(levels: &[Level]) -> bool
    ensures { IsSound levels.now → result ≡ false → has_spaces (shown_all levels.now) ≡ false }
{
    any_knows(levels)
}

fn is_plain(level: &Level) -> bool
    ensures { result ≡ is_plain level.now }
{
    level.triggers.as_slice().first().is_none() && !level.knows_space
}

fn all_plain(levels: &[Level]) -> bool
    ensures { result ≡ list_all is_plain levels.now }
{
    levels.iter().all(is_plain)
}

/// Whether no space has by-need computations that have not begun, and it is noted of none that it was told of a space as a value.
pub fn are_plain(levels: &[Level]) -> bool
    ensures triggers { result ≡ true → has_triggers (shown_all levels.now) ≡ false }
    ensures spaces { IsSound levels.now → result ≡ true → has_spaces (shown_all levels.now) ≡ false }
{
    all_plain(levels)
}
