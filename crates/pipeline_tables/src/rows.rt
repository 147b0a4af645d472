//! What the tables of arrays say.

use crate::fault::{FileError, FileKey, Place, Table};
use crate::keys::check_keys;
use crate::limits::{LONGEST_END, MOST_CHUNKS, MOST_KEYS};
use crate::lists::names_at;
use crate::row::Row;
use crate::tables::{KillTable, PipeTable, RootTable, ShardTable, StageTable, WithholdTable};
use crate::targets::target_at;
use crate::values::{name_at, number_at, number_or, optional_name, text_at};
use rss_names::{MOST_STEPS, Seq};
use std::alloc::Global;

impl Row for ShardTable {
    ghost use Rattle.pipeline_tables.specs.Rows.{shard_of};

    ghost says = { shard_of };

    #[tactic(auto, unfolding(crate::specs::Rows::shard_of))]
    fn read(
        alloc: Global,
        root: &RootTable,
        number: u16,
        table: &toml::Table,
    ) -> Result<ShardTable, FileError> {
        let keys = [FileKey::Name, FileKey::Keys, FileKey::Service];
        check_keys(&keys, Table::Shard, number, table)?;
        let name = name_at(table, Place::key(Table::Shard, number, FileKey::Name))?;
        let keys = names_at(
            alloc,
            table,
            Place::key(Table::Shard, number, FileKey::Keys),
            1,
            MOST_KEYS,
        )?;
        let service = optional_name(table, Place::key(Table::Shard, number, FileKey::Service))?;
        Ok(ShardTable {
            name,
            keys,
            service,
        })
    }
}

impl Row for PipeTable {
    ghost use Rattle.pipeline_tables.specs.Rows.{pipe_of};

    ghost says = { pipe_of };

    #[tactic(auto, unfolding(crate::specs::Rows::pipe_of))]
    fn read(
        _alloc: Global,
        _root: &RootTable,
        number: u16,
        table: &toml::Table,
    ) -> Result<PipeTable, FileError> {
        let keys = [FileKey::Name, FileKey::From, FileKey::To, FileKey::Capacity];
        check_keys(&keys, Table::Pipe, number, table)?;
        let name = name_at(table, Place::key(Table::Pipe, number, FileKey::Name))?;
        let from = name_at(table, Place::key(Table::Pipe, number, FileKey::From))?;
        let to = name_at(table, Place::key(Table::Pipe, number, FileKey::To))?;
        let capacity = number_or(
            table,
            Place::key(Table::Pipe, number, FileKey::Capacity),
            1,
            MOST_CHUNKS,
            1,
        )?;
        Ok(PipeTable {
            name,
            from,
            to,
            capacity: capacity as u8,
        })
    }
}

impl Row for StageTable {
    ghost use Rattle.pipeline_tables.specs.Rows.{stage_of};

    ghost says = { stage_of };

    #[tactic(auto, unfolding(crate::specs::Rows::stage_of))]
    fn read(
        alloc: Global,
        root: &RootTable,
        number: u16,
        table: &toml::Table,
    ) -> Result<StageTable, FileError> {
        let keys = [FileKey::Name, FileKey::Script, FileKey::EarliestEnd];
        check_keys(&keys, Table::Stage, number, table)?;
        let name = name_at(table, Place::key(Table::Stage, number, FileKey::Name))?;
        let script = text_at(table, Place::key(Table::Stage, number, FileKey::Script))?;
        let default = root.earliest_end;
        let earliest_end = number_or(
            table,
            Place::key(Table::Stage, number, FileKey::EarliestEnd),
            0,
            LONGEST_END,
            default,
        )?;
        let script = Vec::from_slice(alloc, script.as_bytes())?;
        Ok(StageTable {
            name,
            script: Seq::from_vec(script),
            earliest_end,
        })
    }
}

impl Row for WithholdTable {
    ghost use Rattle.pipeline_tables.specs.Rows.{withhold_of};

    ghost says = { withhold_of };

    #[tactic(auto, unfolding(crate::specs::Rows::withhold_of))]
    fn read(
        _alloc: Global,
        _root: &RootTable,
        number: u16,
        table: &toml::Table,
    ) -> Result<WithholdTable, FileError> {
        let keys = [
            FileKey::Stage,
            FileKey::Target,
            FileKey::From,
            FileKey::Count,
        ];
        check_keys(&keys, Table::Withhold, number, table)?;
        let stage = name_at(table, Place::key(Table::Withhold, number, FileKey::Stage))?;
        let target = target_at(table, Place::key(Table::Withhold, number, FileKey::Target))?;
        let from = number_at(
            table,
            Place::key(Table::Withhold, number, FileKey::From),
            1,
            MOST_STEPS,
        )?;
        let count = number_at(
            table,
            Place::key(Table::Withhold, number, FileKey::Count),
            1,
            MOST_STEPS,
        )?;
        Ok(WithholdTable {
            stage,
            target,
            from,
            count,
        })
    }
}

impl Row for KillTable {
    ghost use Rattle.pipeline_tables.specs.Rows.{kill_of};

    ghost says = { kill_of };

    #[tactic(auto, unfolding(crate::specs::Rows::kill_of))]
    fn read(
        _alloc: Global,
        _root: &RootTable,
        number: u16,
        table: &toml::Table,
    ) -> Result<KillTable, FileError> {
        let keys = [FileKey::Stage, FileKey::Act];
        check_keys(&keys, Table::Kill, number, table)?;
        let stage = name_at(table, Place::key(Table::Kill, number, FileKey::Stage))?;
        let act = number_at(
            table,
            Place::key(Table::Kill, number, FileKey::Act),
            1,
            MOST_STEPS,
        )?;
        Ok(KillTable { stage, act })
    }
}
