// A G line is settled.
ghost use Rattle.std.specs.Prelude.{◌≡◌, ◌≤◌, length};
ghost use Rattle.file_lines.specs.declared.FileStage.TheVariants as stage;
ghost use Rattle.file_lines.specs.State.{Moved, settled_of};
ghost use Rattle.file_lines.specs.Lists.{lent_lists, SameLists};

use crate::lent::LentFile;
use ledger::{ACCOUNTS, ALLOTTED};
use lists::PLANTS;
use plants::Plant;
use records::tables::PlantTable;

// A month of so few plants is settled in a small room: to clear one for the most plants takes a quarter of its hour.
const FEW: usize = 64;

// Settles the period due with the metered figures of its line, in a room for its plants.
fn settle_in<T: PlantTable>(
    file: &mut LentFile<'_, '_, '_, '_, T>,
    metered: &[u64],
    room: &mut [Plant],
)
    requires stage { file.old.state.stage ≡ stage.Metering }
    requires room { file.old.state.month.plants ≤ length room.old }
    ensures moved { Moved file.old.state (settled_of file.old.state (lent_lists T.rows file.old) metered.now) file.new.state (lent_lists T.rows file.new) }
    ensures same { SameLists file.old file.new }
    ensures read { (file.new.plants.now ≡ file.old.plants.now) × (file.new.profile.now ≡ file.old.profile.now) }
{
    let state = file.state;
    let mut month = state.month;
    let rows = month.plants as usize;
    let figures = month.periods as usize;
    let fours = ALLOTTED * rows;
    let twos = ACCOUNTS * rows;
    // no heap: an array for the most plants
    let mut allotment = [0u64; ALLOTTED * PLANTS];
    let lent = &mut allotment[..fours];
    // all four lent `&mut`, as in `open_month`
    let plants = file.plants.front(rows, room);
    let profile = &mut file.profile[..figures];
    let allotted = &mut file.allotted[..fours];
    let accounts = &mut file.accounts[..twos];
    let answer = month.settle(plants, profile, metered, lent, allotted, accounts);
    file.state = state.after(answer, month);
}

// ... in the room that they take.
#[tactic(auto, using(crate::proofs::Settled::few_enough))]
pub fn settle_line<T: PlantTable>(file: &mut LentFile<'_, '_, '_, '_, T>, metered: &[u64])
    requires { file.old.state.stage ≡ stage.Metering }
    ensures moved { Moved file.old.state (settled_of file.old.state (lent_lists T.rows file.old) metered.now) file.new.state (lent_lists T.rows file.new) }
    ensures same { SameLists file.old file.new }
    ensures read { (file.new.plants.now ≡ file.old.plants.now) × (file.new.profile.now ≡ file.old.profile.now) }
{
    if file.state.month.plants <= FEW as u64 {
        settle_in(file, metered, &mut [Plant::default(); FEW]);
    } else {
        settle_in(file, metered, &mut [Plant::default(); PLANTS]);
    }
}
