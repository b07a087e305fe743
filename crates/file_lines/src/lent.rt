// The lent lists of what was read: the plant table, the profile, the ledger.
ghost use Rattle.std.specs.Prelude.{◌≡◌, ◌*◌, ◌≤◌, length};
ghost use Rattle.file_lines.specs.State.{kept, Valid};

use crate::MonthFile;
use ledger::{ACCOUNTS, ALLOTTED, LedgerView};
use records::tables::{PlantRows, PlantTable};
use std::alloc::AllocError;

// The lists, read. They may hold anything.
pub struct FileView<'a, T> {
    pub plants: &'a T,
    pub profile: &'a [u64],
    pub allotted: &'a [u64],
    pub accounts: &'a [i64],
}

// By hand: a derive would ask that the table itself be copied.
impl<T> Clone for FileView<'_, T> {
    ghost use Rattle.std.specs.Prelude.{⊤};

    ghost is_clone = { λ x y. y ≡ x };

    ghost is_infallible = { λ _. ⊤ };

    fn clone(&self) -> Result<Self, AllocError> {
        Ok(*self)
    }
}

impl<T> Copy for FileView<'_, T> {}

impl<'a, T: PlantRows> FileView<'a, T> {
    ghost use Rattle.ledger.specs.Ledger.{viewed};
    ghost use Rattle.file_lines.specs.State.{ledger_of};
    ghost use Rattle.file_lines.specs.Lists.{viewed_lists};

    // The ledger of so many plants.
    #[tactic(auto, unfolding(crate::specs::State::ledger_of))]
    pub fn ledger_of(self, plants: usize) -> LedgerView<'a>
        requires { (4 * plants ≤ length self.allotted.now) × (2 * plants ≤ length self.accounts.now) }
        ensures { viewed result ≡ ledger_of plants (viewed_lists T.rows self.entry) }
    {
        LedgerView {
            allotted: &self.allotted[..ALLOTTED * plants],
            accounts: &self.accounts[..ACCOUNTS * plants],
        }
    }
}

// A file's state and its lists, written: they fit together, as after every line. What is lent one promises `SameLists`, so that its caller knows in which
// lists it wrote.
#[derive(Drop)]
pub struct LentFile<'a, 'b, 'c, 'd, T: PlantTable> {
    pub state: MonthFile,
    pub plants: &'a mut T,
    pub profile: &'b mut [u64],
    pub allotted: &'c mut [u64],
    pub accounts: &'d mut [i64],
    pub ghost valid: { Valid state (kept (T.rows plants.now) profile.now allotted.now accounts.now) },
}

impl<T: PlantTable> LentFile<'_, '_, '_, '_, T> {
    ghost use Rattle.file_lines.specs.Lists.{lent_lists, viewed_lists};

    // The lists as they stand.
    pub fn view(&self) -> FileView<'_, T>
        ensures { viewed_lists T.rows result ≡ lent_lists T.rows self.now }
    {
        FileView {
            plants: self.plants,
            profile: self.profile,
            allotted: self.allotted,
            accounts: self.accounts,
        }
    }
}
