// Copies of commands, scripts and replies.
use crate::{
    AlterWords, ChangeWords, Command, ExplainWords, KeyWords, Page, RecastWords, Refusal, Reply,
    Script, TableWords, ValueWords, ViewWords, WorkWords,
};
use mesa_columns::TryCopy;
use std::alloc::AllocError;

impl TryCopy for KeyWords {
    fn copy(&self) -> Result<Self, AllocError> {
        Ok(KeyWords {
            name: self.name.copy()?,
            kind: self.kind,
        })
    }
}

impl TryCopy for ValueWords {
    fn copy(&self) -> Result<Self, AllocError> {
        Ok(ValueWords {
            name: self.name.copy()?,
            agg: self.agg,
        })
    }
}

impl TryCopy for TableWords {
    fn copy(&self) -> Result<Self, AllocError> {
        Ok(TableWords {
            table: self.table.copy()?,
            keys: self.keys.copy()?,
            values: self.values.copy()?,
        })
    }
}

impl TryCopy for ViewWords {
    fn copy(&self) -> Result<Self, AllocError> {
        Ok(ViewWords {
            view: self.view.copy()?,
            table: self.table.copy()?,
            keys: self.keys.copy()?,
            values: self.values.copy()?,
        })
    }
}

impl TryCopy for ChangeWords {
    fn copy(&self) -> Result<Self, AllocError> {
        match self {
            ChangeWords::AddValue { column, default } => Ok(ChangeWords::AddValue {
                column: column.copy()?,
                default: default.copy()?,
            }),
            ChangeWords::DropValue { name } => Ok(ChangeWords::DropValue { name: name.copy()? }),
            ChangeWords::AddKey { column, default } => Ok(ChangeWords::AddKey {
                column: column.copy()?,
                default: default.copy()?,
            }),
        }
    }
}

impl TryCopy for AlterWords {
    fn copy(&self) -> Result<Self, AllocError> {
        Ok(AlterWords {
            table: self.table.copy()?,
            change: self.change.copy()?,
        })
    }
}

impl TryCopy for ExplainWords {
    fn copy(&self) -> Result<Self, AllocError> {
        Ok(ExplainWords {
            relation: self.relation.copy()?,
            version: self.version,
            filter: match &self.filter {
                None => None,
                Some(words) => Some(words.copy()?),
            },
        })
    }
}

impl TryCopy for WorkWords {
    fn copy(&self) -> Result<Self, AllocError> {
        Ok(WorkWords {
            table: self.table.copy()?,
            parts: self.parts,
        })
    }
}

impl TryCopy for RecastWords {
    fn copy(&self) -> Result<Self, AllocError> {
        Ok(RecastWords {
            table: self.table.copy()?,
            keys: self.keys.copy()?,
            values: self.values.copy()?,
        })
    }
}

impl TryCopy for Command {
    fn copy(&self) -> Result<Self, AllocError> {
        Ok(match self {
            Command::Table(words) => Command::Table(words.copy()?),
            Command::View(words) => Command::View(words.copy()?),
            Command::Alter(words) => Command::Alter(words.copy()?),
            Command::Load(rows) => Command::Load(rows.copy()?),
            Command::Query(words) => Command::Query(words.copy()?),
            Command::Explain(words) => Command::Explain(words.copy()?),
            Command::Pin(version) => Command::Pin(*version),
            Command::Release(token) => Command::Release(*token),
            Command::Expire { table, version } => {
                let table = match table {
                    None => None,
                    Some(name) => Some(name.copy()?),
                };
                Command::Expire {
                    table,
                    version: *version,
                }
            }
            Command::Work(words) => Command::Work(words.copy()?),
            Command::Recast(words) => Command::Recast(words.copy()?),
        })
    }
}

impl TryCopy for Script {
    fn copy(&self) -> Result<Self, AllocError> {
        Ok(Script {
            lease: self.lease,
            sessions: self.sessions.copy()?,
        })
    }
}

impl TryCopy for Page {
    fn copy(&self) -> Result<Self, AllocError> {
        let resume = match &self.resume {
            None => None,
            Some(key) => Some(key.copy()?),
        };
        Ok(Page {
            version: self.version,
            rows: self.rows.copy()?,
            resume,
        })
    }
}

impl TryCopy for Refusal {
    fn copy(&self) -> Result<Self, AllocError> {
        Ok(match self {
            Refusal::NoTable { row } => Refusal::NoTable { row: *row },
            Refusal::TableExists => Refusal::TableExists,
            Refusal::BadSchema { reason } => Refusal::BadSchema { reason: *reason },
            Refusal::BadRow { row, column } => Refusal::BadRow {
                row: *row,
                column: *column,
            },
            Refusal::DuplicateKey { first, second } => Refusal::DuplicateKey {
                first: *first,
                second: *second,
            },
            Refusal::SumBound { table, column } => Refusal::SumBound {
                table: table.copy()?,
                column: column.copy()?,
            },
            Refusal::Stale { asked, oldest } => Refusal::Stale {
                asked: *asked,
                oldest: *oldest,
            },
            Refusal::Future { asked, newest } => Refusal::Future {
                asked: *asked,
                newest: *newest,
            },
            Refusal::NoColumn => Refusal::NoColumn,
            Refusal::ReplaceGroup { column } => Refusal::ReplaceGroup {
                column: column.copy()?,
            },
            Refusal::BadDefault { column } => Refusal::BadDefault {
                column: column.copy()?,
            },
            Refusal::InView { view } => Refusal::InView { view: view.copy()? },
            Refusal::BadFilter { term } => Refusal::BadFilter { term: *term },
            Refusal::BadResume => Refusal::BadResume,
            Refusal::NoPin { token } => Refusal::NoPin { token: *token },
            Refusal::PinsFull { limit } => Refusal::PinsFull { limit: *limit },
            Refusal::TablesFull { limit } => Refusal::TablesFull { limit: *limit },
            Refusal::VersionsFull { limit } => Refusal::VersionsFull { limit: *limit },
            Refusal::ReadFault => Refusal::ReadFault,
            Refusal::WriteFault => Refusal::WriteFault,
            Refusal::Closed { position } => Refusal::Closed {
                position: *position,
            },
            Refusal::Damaged(damage) => Refusal::Damaged(*damage),
            Refusal::Lost { lease, holder } => Refusal::Lost {
                lease: *lease,
                holder: *holder,
            },
            Refusal::Memory => Refusal::Memory,
            Refusal::EpochsFull { limit } => Refusal::EpochsFull { limit: *limit },
            Refusal::Changed { epoch } => Refusal::Changed { epoch: *epoch },
            Refusal::TooManyDeltas { limit } => Refusal::TooManyDeltas { limit: *limit },
        })
    }
}

impl TryCopy for Reply {
    fn copy(&self) -> Result<Self, AllocError> {
        Ok(match self {
            Reply::Table { name } => Reply::Table { name: name.copy()? },
            Reply::View { name } => Reply::View { name: name.copy()? },
            Reply::Altered { table, epoch } => Reply::Altered {
                table: table.copy()?,
                epoch: *epoch,
            },
            Reply::Loaded { version, rows } => Reply::Loaded {
                version: *version,
                rows: *rows,
            },
            Reply::Page(page) => Reply::Page(page.copy()?),
            Reply::Rows {
                rows,
                version,
                more,
            } => Reply::Rows {
                rows: *rows,
                version: *version,
                more: *more,
            },
            Reply::Spans { ranges, by } => {
                let by = match by {
                    None => None,
                    Some(name) => Some(name.copy()?),
                };
                Reply::Spans {
                    ranges: ranges.copy()?,
                    by,
                }
            }
            Reply::Pinned { token, version } => Reply::Pinned {
                token: *token,
                version: *version,
            },
            Reply::Released { token } => Reply::Released { token: *token },
            Reply::Expired { table, oldest } => {
                let table = match table {
                    None => None,
                    Some(name) => Some(name.copy()?),
                };
                Reply::Expired {
                    table,
                    oldest: *oldest,
                }
            }
            Reply::Swapped { from, to } => Reply::Swapped {
                from: *from,
                to: *to,
            },
            Reply::Recast { table, epoch } => Reply::Recast {
                table: table.copy()?,
                epoch: *epoch,
            },
            Reply::Idle => Reply::Idle,
            Reply::Busy { lease } => Reply::Busy { lease: *lease },
            Reply::Refused(refusal) => Reply::Refused(refusal.copy()?),
        })
    }
}
