ghost use Rattle.std.specs.Prelude.{◌≡◌, ◌++◌, ◌∷◌, [], ℕ, List, Option, IfOk, OnOk, codes, map, string_bytes};
ghost use Rattle.std.specs.Fmt.{decimal};
ghost use Rattle.nd_table.specs.Left.{lifetimes_left};
ghost use Rattle.nd_chronicle.specs.Shown.{flag_text, left_text};
ghost use Rattle.nd_out.specs.Row.{lasting_text};

use crate::line::write_number;
use nd_table::{WithLifetime, WithLifetimes};
use std::alloc::{AllocError, Allocator};

/// A value that is shown in a row of a table.
pub(crate) trait Row {
    /// Its text.
    ghost shown: { Self → List ℕ };

    /// Writes its text. Returns an error if out of memory.
    fn write_row<A: Allocator>(&self, text: &mut String<A>) -> Result<(), AllocError>
        ensures { OnOk result (string_bytes text.new ≡ string_bytes text.old ++ shown self.now) };
}

/// Writes a word and a number after it.
pub(crate) fn write_labelled<A: Allocator>(
    text: &mut String<A>,
    word: &str,
    number: u64,
) -> Result<(), AllocError>
    ensures { OnOk result (string_bytes text.new ≡ string_bytes text.old ++ word.now ++ decimal number) }
{
    text.push_str(word)?;
    write_number(text, number)
}

/// Writes a space and a word.
pub(crate) fn write_word<A: Allocator>(text: &mut String<A>, word: &str) -> Result<(), AllocError>
    ensures { OnOk result (string_bytes text.new ≡ string_bytes text.old ++ codes " " ++ word.now) }
{
    text.push_str(" ")?;
    text.push_str(word)
}

/// Writes a word and a flag after it.
pub(crate) fn write_flag<A: Allocator>(
    text: &mut String<A>,
    word: &str,
    flag: bool,
) -> Result<(), AllocError>
    ensures { OnOk result (string_bytes text.new ≡ string_bytes text.old ++ word.now ++ flag_text flag) }
{
    text.push_str(word)?;
    text.push_str(if flag { "1" } else { "0" })
}

/// Writes a space, and what is left of a lifetime, in milliseconds.
pub(crate) fn write_left<A: Allocator>(
    text: &mut String<A>,
    left: Option<u64>,
) -> Result<(), AllocError>
    ensures { OnOk result (string_bytes text.new ≡ string_bytes text.old ++ codes " " ++ left_text left) }
{
    match left {
        Some(left) => write_labelled(text, " ", left),
        None => text.push_str(" inf"),
    }
}

/// Returns the text of a row. Returns an error if out of memory.
pub(crate) fn row_text<R: Row, A: Allocator>(alloc: A, row: &R) -> Result<String<A>, AllocError>
    ensures { IfOk result (λ text. string_bytes text ≡ R.shown row.now) }
{
    let mut text = String::new(alloc);
    row.write_row(&mut text)?;
    Ok(text)
}

/// Appends the text of a row. Returns an error if out of memory.
pub(crate) fn add_row<R: Row, A: Allocator + Clone>(
    rows: &mut Vec<String<A>, A>,
    alloc: &A,
    row: &R,
) -> Result<(), AllocError>
    ensures { OnOk result (map string_bytes rows.new.items ≡ map string_bytes rows.old.items ++ R.shown row.now ∷ []) }
{
    let text = row_text(alloc.clone()?, row)?;
    rows.push(text)?;
    Ok(())
}

impl<K: Row> Row for WithLifetime<'_, K> {
    ghost use Rattle.nd_table.specs.Left.{seen_in};
    ghost use Rattle.nd_out.specs.Row.{lasting_text};

    ghost shown = { λ w. lasting_text K.shown (seen_in w) };

    fn write_row<A: Allocator>(&self, text: &mut String<A>) -> Result<(), AllocError> {
        self.key.write_row(text)?;
        write_left(text, self.left)
    }
}

/// Appends the text of each key with what is left of its lifetime. Returns an error if out of memory.
pub(crate) fn add_with_lifetimes<K: Row, A: Allocator + Clone>(
    rows: &mut Vec<String<A>, A>,
    alloc: &A,
    keys: WithLifetimes<'_, K>,
) -> Result<(), AllocError>
    ensures { OnOk result (map string_bytes rows.new.items ≡ map string_bytes rows.old.items ++ map (lasting_text K.shown) (lifetimes_left keys.entry)) }
{
    for key in keys {
        add_row(rows, alloc, &key)?;
    }
    Ok(())
}
