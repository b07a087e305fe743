// A plant table that is kept from call to call: its rows are read and written one by one, or lent as a list. A month file takes its table so, since C keeps
// it as columns: no call copies a row that it does not need.
ghost use Rattle.std.specs.Prelude.{◌≡◌, ℕ, ◌<◌, ◌≤◌, List, length, take, set, get_or};
ghost use Rattle.plants.specs.declared.Plant.{Plant};
ghost use Rattle.plants.specs.Plants.{none};
ghost use Rattle.records.specs.Records.{table_rows};

use crate::{COLUMNS, put_row, row_at};
use lists::PLANTS;
use plants::Plant;

// What is read.
pub trait PlantRows {
    ghost rows: { Self → List Plant };

    // How many rows it has room for.
    fn count(&self) -> usize
        ensures { result ≡ length (rows self.now) };

    fn row(&self, i: usize) -> Plant
        requires { i < length (rows self.now) }
        ensures { result ≡ get_or (rows self.now) i none };

    // The first rows as a list: the table's own, or copied to the room.
    fn front<'a>(&'a self, n: usize, room: &'a mut [Plant]) -> &'a [Plant]
        requires { (n ≤ length (rows self.now)) × (n ≤ length room.old) }
        ensures { result.now ≡ take n (rows self.now) };
}

// ... and written.
pub trait PlantTable: PlantRows {
    // The ghost name of the list that the rows lie in, where they lie in another's; 0 where they are the table's own.
    ghost lender: { Self → ℕ };

    fn put(&mut self, i: usize, plant: Plant)
        requires { i < length (Self.rows self.old) }
        ensures placed { Self.rows self.new ≡ set (Self.rows self.old) i plant }
        ensures same { lender self.new ≡ lender self.old };
}

impl<const N: usize> PlantRows for [Plant; N] {
    ghost rows = { λ plants. plants };

    fn count(&self) -> usize {
        N
    }

    fn row(&self, i: usize) -> Plant {
        let plants = self;
        plants[i]
    }

    fn front<'a>(&'a self, n: usize, _room: &'a mut [Plant]) -> &'a [Plant] {
        &self[..n]
    }
}

impl<const N: usize> PlantTable for [Plant; N] {
    ghost lender = { λ _. 0 };

    fn put(&mut self, i: usize, plant: Plant) {
        self[i] = plant;
    }
}

// C's five columns: 512 rows.
impl PlantRows for [u64; COLUMNS] {
    ghost rows = { table_rows };

    fn count(&self) -> usize {
        PLANTS
    }

    fn row(&self, i: usize) -> Plant {
        row_at(self, i)
    }

    fn front<'a>(&'a self, n: usize, room: &'a mut [Plant]) -> &'a [Plant] {
        for i in 0..n {
            room[i] = row_at(self, i);
        }
        &room[..n]
    }
}

impl PlantTable for [u64; COLUMNS] {
    ghost lender = { λ _. 0 };

    fn put(&mut self, i: usize, plant: Plant) {
        put_row(self, i, plant);
    }
}
