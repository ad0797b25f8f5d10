// The gateway: a table made from settings, which is fed packets and ticks.
use tables::table::Table;

mod handling;

#[derive(Drop)]
pub struct Gateway {
    table: Table,
}
