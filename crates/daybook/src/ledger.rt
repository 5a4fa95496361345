// The book's own tables.
use crate::table::LineTable;
use inputs::tables::Tables;

// The lines of an hour that is not settled mean nothing.
#[derive(Drop)]
pub struct Ledger {
    pub(crate) inputs: Tables,
    pub(crate) lines: LineTable,
}
