//! Strategies: read and checked, and where one is refused.

ghost use Rattle.toml.specs.View.{table_view};
ghost use Rattle.item_files.specs.Accepts.{Opens, IsAcceptedIn, IsAcceptedOf};
ghost use Rattle.item_files.specs.Files.{IsFromFile};

use crate::fault::SettingsFault;
use crate::file::read_file;
use std::alloc::Global;
use std::rt::Files;
use strategy_check::{Accepted, check};
use strategy_core::Strategy;
use toml::value::Table;

/// The table that a TOML text is. Refused 30 where it is none.
pub fn document(alloc: Global, text: &[u8]) -> Result<Table, SettingsFault>
    ensures { Opens result text.now }
{
    Ok(strategy_core::document(alloc, text)?)
}

/// The strategy of a table, with its least ranks. Refused 28, 29 or 31 to 39, by the first test that fails.
pub fn accepted_in(alloc: Global, table: &Table) -> Result<Accepted, SettingsFault>
    ensures { IsAcceptedIn (table_view table.now) result }
{
    match check(alloc, Strategy::from_table(alloc, table)?) {
        Ok(accepted) => Ok(accepted),
        Err((_strategy, error)) => Err(SettingsFault::from(error)),
    }
}

/// The strategy of a TOML text, with its least ranks. Refused 30 where the text is no TOML, else as its table is.
pub fn accepted_of(alloc: Global, text: &[u8]) -> Result<Accepted, SettingsFault>
    ensures { IsAcceptedOf text.now result }
{
    let table = document(alloc, text)?;
    accepted_in(alloc, &table)
}

/// The table that the file is. Refused 80 where the file is not read, else 30 where it is no TOML.
pub fn read_document<R: Files + AllocGlobal>(rt: &R, path: &str) -> Result<Table, SettingsFault>
    ensures { IsFromFile (λ text result. Opens result text) result }
{
    document(rt.alloc(), &read_file(rt, path)?)
}

/// The strategy in the file, with its least ranks. Refused 80 where the file is not read, else as its text is.
pub fn read_strategy<R: Files + AllocGlobal>(rt: &R, path: &str) -> Result<Accepted, SettingsFault>
    ensures { IsFromFile IsAcceptedOf result }
{
    accepted_of(rt.alloc(), &read_file(rt, path)?)
}
