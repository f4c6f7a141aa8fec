//! The words of a script that name tables.

ghost use Rattle.std.specs.Prelude.{◌≡◌, Some, IfSome};
ghost use Rattle.std.specs.Option.{option_map};
ghost use Rattle.nd_chronicle.specs.Event as events;
ghost use Rattle.nd_chronicle.specs.Shown as shown;
ghost use Rattle.nd_node.specs.Event.{clearable_of, table_of};
ghost use Rattle.ndpctl_run.specs.Table.{clearable_word, table_word};

use nd_node::{Clearable, Table};

const TABLES: [Table; 9] = [
    Table::Neighbours,
    Table::Routers,
    Table::Prefixes,
    Table::Addresses,
    Table::Dns,
    Table::Redirects,
    Table::Params,
    Table::Advertise,
    Table::Routes,
];

/// Returns the word that names a table to show.
fn table_word(table: Table) -> &'static str
    ensures { result.now ≡ table_word (table_of table) }
{
    match table {
        Table::Neighbours => "neighbours",
        Table::Routers => "routers",
        Table::Prefixes => "prefixes",
        Table::Addresses => "addresses",
        Table::Dns => "dns",
        Table::Redirects => "redirects",
        Table::Params => "params",
        Table::Advertise => "advertise",
        Table::Routes => "routes",
    }
}

/// Returns the table to show that a word names.
pub(crate) fn read_table(word: &[u8]) -> Option<Table>
    ensures found { IfSome result (λ table. word.now ≡ table_word (table_of table)) }
    ensures only { (table : shown.Table) → word.now ≡ table_word table → option_map table_of result ≡ Some table }
{
    for table in TABLES {
        if table_word(table).as_bytes() == word {
            return Some(table);
        }
    }
    None
}

const CLEARABLES: [Clearable; 5] = [
    Clearable::Neighbours,
    Clearable::Routers,
    Clearable::Prefixes,
    Clearable::Redirects,
    Clearable::Dns,
];

/// Returns the word that names a table to clear.
fn clearable_word(table: Clearable) -> &'static str
    ensures { result.now ≡ clearable_word (clearable_of table) }
{
    match table {
        Clearable::Neighbours => "neighbours",
        Clearable::Routers => "routers",
        Clearable::Prefixes => "prefixes",
        Clearable::Redirects => "redirects",
        Clearable::Dns => "dns",
    }
}

/// Returns the table to clear that a word names.
pub(crate) fn read_clearable(word: &[u8]) -> Option<Clearable>
    ensures found { IfSome result (λ table. word.now ≡ clearable_word (clearable_of table)) }
    ensures only { (table : events.Clearable) → word.now ≡ clearable_word table → option_map clearable_of result ≡ Some table }
{
    for table in CLEARABLES {
        if clearable_word(table).as_bytes() == word {
            return Some(table);
        }
    }
    None
}
