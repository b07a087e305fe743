// The plant table of a month file: records, or C's five columns of 512 places, whose rows are read and written one by one.
#![tactic(auto, unfolding(crate::specs::Records::put_row, crate::specs::Records::row_at))]

ghost use Rattle.std.specs.Prelude.{◌≡◌, ◌<◌, ◌≤◌, length};
ghost use Rattle.records.specs.Records.{put_row, put_rows, row_at, rows_of, table_places};

use lists::PLANTS;
use plants::Plant;

pub mod slices;
pub mod tables;
#[cfg(test)]
mod tests;

// Where the columns begin, after the submarkets; and the places of all five. The C interface needs them: it lends the table as one list.
const NUMBERS: usize = PLANTS;

const GUARANTEES: usize = 2 * PLANTS;

const LOSSES: usize = 3 * PLANTS;

const AVAILABILITIES: usize = 4 * PLANTS;

pub const COLUMNS: usize = 5 * PLANTS;

// Writes a record to place i of the five columns.
pub fn put_row(columns: &mut [u64], i: usize, plant: Plant)
    requires { (table_places ≤ length columns.old) × (i < 512) }
    ensures { columns.new ≡ put_row columns.old i plant }
{
    columns[i] = plant.submarket;
    columns[NUMBERS + i] = plant.number;
    columns[GUARANTEES + i] = plant.guarantee;
    columns[LOSSES + i] = plant.loss;
    columns[AVAILABILITIES + i] = plant.availability;
}

// The record at place i of the five columns.
pub fn row_at(columns: &[u64], i: usize) -> Plant
    requires { (table_places ≤ length columns.now) × (i < 512) }
    ensures { result ≡ row_at columns.now i }
{
    Plant {
        submarket: columns[i],
        number: columns[NUMBERS + i],
        guarantee: columns[GUARANTEES + i],
        loss: columns[LOSSES + i],
        availability: columns[AVAILABILITIES + i],
    }
}

// The rows that the columns hold, copied.
pub fn plants_of(columns: &[u64]) -> [Plant; PLANTS]
    requires { table_places ≤ length columns.now }
    ensures { result ≡ rows_of 512 columns.now }
{
    let mut plants = [Plant::default(); PLANTS];
    for (i, plant) in plants.iter_mut().enumerate() {
        *plant = row_at(columns, i);
    }
    plants
}

// Writes the rows to the columns, from the first place on.
pub fn put_plants(columns: &mut [u64], plants: &[Plant])
    requires { (table_places ≤ length columns.old) × (length plants.now ≤ 512) }
    ensures { columns.new ≡ put_rows columns.old 0 plants.now }
{
    for (i, plant) in plants.iter().enumerate() {
        put_row(columns, i, *plant);
    }
}
