// P and H lines: what they hold is kept, and the last opens the month.
ghost use Rattle.std.specs.Prelude.{◌≡◌, ◌+◌, ◌≤◌, ◌<◌, length};
ghost use Rattle.file_lines.specs.declared.FileStage.TheVariants as stage;
ghost use Rattle.file_lines.specs.File.{plant_of, taken};
ghost use Rattle.file_lines.specs.State.{progress_of, Moved};
ghost use Rattle.file_lines.specs.Lists.{lent_lists, SameLists};

use crate::lent::LentFile;
use crate::opening::open_month;
use crate::{FileStage, MonthFile};
use plants::Plant;
use records::tables::PlantTable;

// The plant of a P line's figures. No `From`: that a list has five figures no type says.
#[tactic(auto, unfolding(crate::specs::File::plant_of))]
fn plant_of(figures: &[u64]) -> Plant
    requires { 5 ≤ length figures.now }
    ensures { result ≡ plant_of figures.now }
{
    Plant {
        submarket: figures[0],
        number: figures[1],
        guarantee: figures[2],
        loss: figures[3],
        availability: figures[4],
    }
}

// A P line is a row more, an H line a profile figure more.
pub fn gather<T: PlantTable>(file: &mut LentFile<'_, '_, '_, '_, T>, figures: &[u64])
    requires { (file.old.state.stage ≡ stage.Gathering) × (2 ≤ length figures.now) × (file.old.state.rows < file.old.state.plants → 5 ≤ length figures.now) }
    ensures moved { Moved file.old.state (taken (file.old.state.count + 1) (progress_of file.old.state (lent_lists T.rows file.old)) figures.now) file.new.state (lent_lists T.rows file.new) }
    ensures same { SameLists file.old file.new }
{
    let state = file.state;
    let row = state.rows;
    if (row as u64) < state.plants {
        file.plants.put(row, plant_of(figures));
        file.state = MonthFile {
            rows: row + 1,
            ..state.at_stage(FileStage::Gathering)
        };
        return;
    }
    let at = state.figures;
    file.profile[at] = figures[1];
    if at as u64 + 1 < state.periods {
        file.state = MonthFile {
            figures: at + 1,
            ..state.at_stage(FileStage::Gathering)
        };
        return;
    }
    open_month(file);
}
