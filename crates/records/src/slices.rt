// A plant table of records whose number is known at run time alone.

use crate::tables::{PlantRows, PlantTable};
use plants::Plant;

// Records in a list of any length. A struct, since with a bare `&mut [Plant]` as the table a caller knows nothing of the list after the loan.
#[derive(Drop)]
pub struct LentPlants<'a> {
    pub plants: &'a mut [Plant],
}

impl PlantRows for LentPlants<'_> {
    ghost rows = { λ table. table.plants.now };

    fn count(&self) -> usize {
        self.plants.len()
    }

    fn row(&self, i: usize) -> Plant {
        let plants = &self.plants;
        plants[i]
    }

    fn front<'a>(&'a self, n: usize, _room: &'a mut [Plant]) -> &'a [Plant] {
        &self.plants[..n]
    }
}

impl PlantTable for LentPlants<'_> {
    ghost lender = { λ table. table.plants.ghost_name };

    fn put(&mut self, i: usize, plant: Plant) {
        self.plants[i] = plant;
    }
}

// ... lent to be read alone. (One `impl` over std's `AsSlice`, for arrays too, overlaps that of the columns.)
impl PlantRows for &[Plant] {
    ghost rows = { λ plants. plants.now };

    fn count(&self) -> usize {
        self.len()
    }

    fn row(&self, i: usize) -> Plant {
        self[i]
    }

    fn front<'a>(&'a self, n: usize, _room: &'a mut [Plant]) -> &'a [Plant] {
        &self[..n]
    }
}
