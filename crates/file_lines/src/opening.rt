// The month is opened after the last H line.
ghost use Rattle.std.specs.Prelude.{◌≡◌};
ghost use Rattle.file_lines.specs.State.{Moved, Openable, opened_of};
ghost use Rattle.file_lines.specs.Lists.{lent_lists, SameLists};

use crate::lent::LentFile;
use ledger::{ACCOUNTS, ALLOTTED};
use lists::PLANTS;
use month::Month;
use plants::Plant;
use records::tables::PlantTable;

// Opens the month of the rows and the profile that are kept.
pub fn open_month<T: PlantTable>(file: &mut LentFile<'_, '_, '_, '_, T>)
    requires { Openable file.old.state (lent_lists T.rows file.old) }
    ensures moved { Moved file.old.state (opened_of file.old.state (lent_lists T.rows file.old)) file.new.state (lent_lists T.rows file.new) }
    ensures same { SameLists file.old file.new }
    ensures read { (file.new.plants.now ≡ file.old.plants.now) × (file.new.profile.now ≡ file.old.profile.now) }
{
    let state = file.state;
    let rows = state.plants as usize;
    let figures = state.periods as usize;
    let fours = ALLOTTED * rows;
    let twos = ACCOUNTS * rows;
    let mut month = Month::default();
    // no heap: room for the most plants
    let mut room = [Plant::default(); PLANTS];
    // all four are lent `&mut`: to read one list of the file while another is lent is not covered yet
    let plants = file.plants.front(rows, &mut room);
    let profile = &mut file.profile[..figures];
    let allotted = &mut file.allotted[..fours];
    let accounts = &mut file.accounts[..twos];
    let answer = month.open(plants, profile, state.tariff, allotted, accounts);
    file.state = state.after(answer, month);
}
