// Of how many columns bounds tell all that is asked. It bears on the time alone.
ghost use Rattle.std.specs.Prelude.{◌≡◌, ◌<◌};
ghost use Rattle.gen_kill.specs.Selections.{column_count};
ghost use Rattle.flow_regions.specs.code.Lists.{AreLow};
ghost use Rattle.flow_bounds.specs.code.Shared.{IsAsking};

use crate::answers::Asking;
use crate::asked::Told;

// Whether all is told of the bits that are asked of a column.
fn is_settled(asking: Asking<'_, '_, '_>, told: &[Told], column: u32) -> bool
    requires asking { IsAsking asking }
    requires low { column < column_count asking.shared.problem.now }
{
    let numbers = asking.by_column.of(column);
    for number in numbers {
        if told.get(*number as usize) == Some(&Told::Nothing) {
            return false;
        }
    }
    true
}

/// Of how many columns all is told that is asked.
pub(crate) fn settled_count(asking: Asking<'_, '_, '_>, columns: &[u32], told: &[Told]) -> u32
    requires asking { IsAsking asking }
    requires low { AreLow (column_count asking.shared.problem.now) columns.now }
{
    let mut count = 0u32;
    for column in columns {
        if is_settled(asking, told, *column) {
            count = count.saturating_add(1);
        }
    }
    count
}
