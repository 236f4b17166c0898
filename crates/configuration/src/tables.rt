ghost use Rattle.std.specs.Prelude.{◌≡◌, [], option_map};
ghost use Rattle.toml.specs.View.{table_view};
ghost use Rattle.configuration.specs.Tables.{table_at};

use toml::Table;

/// The table at a key of a table, and `empty`, which has no key, where the key is absent.
pub fn table_at<'a>(table: &'a Table, key: &str, empty: &'a Table) -> Option<&'a Table>
    requires { empty.now.entries ≡ [] }
    ensures { option_map (λ t. table_view t.now) result ≡ table_at key.now (table_view table.now) }
{
    match table.get(key) {
        Some(value) => value.as_table(),
        None => Some(empty),
    }
}
