// Conflict of two states, judged by the names of the classes that their edges lead to.
#![tactic(auto)]

ghost use Rattle.std.specs.Prelude.{◌≡◌, ◌+◌, length};
ghost use Rattle.table.specs.Table.{Rows};
ghost use Rattle.conflicts.specs.Conflicts.{clash};

use table::Row;

// Whether a and b conflict. A label that only one of them has is no conflict.
pub fn conflict(rows: &[Row], names: &[u16; 256], a: usize, b: usize) -> bool
    requires { Rows rows.now (a + 1) × Rows rows.now (b + 1)
        × (length names.now ≡ 256) }
    ensures { result ≡ clash rows.now names.now a b }
{
    for y in sets::each(sets::shared(rows[a].labels, rows[b].labels)) {
        if names[table::target(rows, a, y)] != names[table::target(rows, b, y)] {
            return true;
        }
    }
    false
}
