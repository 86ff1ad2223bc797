// A lent slice as a store's cells, with power for a number of writes; a keeper keeps what is written.
ghost use Rattle.std.specs.Prelude.{◌≡◌, if◌then◌else◌, [], ◌∷◌};
ghost use Rattle.counter.specs.Cells.{still};

use crate::cells::{Cells, NotWritten};
use crate::history::History;
use crate::keeper::Keeper;
use crate::write::Write;

#[derive(Drop)]
pub struct LentCells<'a, K: Keeper> {
    cells: &'a mut [u32],
    // for how many more writes power lasts
    lasts: u64,
    history: History,
    keeper: &'a mut K,
}

impl<'a, K: Keeper> LentCells<'a, K> {
    pub fn new(cells: &'a mut [u32], lasts: u64, keeper: &'a mut K) -> LentCells<'a, K>
        ensures held { result.cells.now ≡ cells.old }
        ensures lasts { result.lasts ≡ lasts }
        ensures none_written { result.history.writes ≡ [] }
        ensures keeper { result.keeper.now ≡ keeper.old }
        ensures same_cells { result.cells.ghost_name ≡ cells.entry.ghost_name }
        ensures same_keeper { result.keeper.ghost_name ≡ keeper.entry.ghost_name }
    {
        LentCells {
            cells,
            lasts,
            history: History::new(),
            keeper,
        }
    }
}

impl<'a, K: Keeper> Cells for LentCells<'a, K> {
    ghost sure = { K.sure };

    ghost held = { λ c. c.cells.now };

    ghost writes = { λ c. c.history.writes };

    ghost lasts = { λ c. c.lasts };

    // Memory is what is lent itself.
    ghost disk = { λ c. if K.IN_MEMORY then still c.cells.now else K.state c.keeper.now };

    ghost loans = { λ c. c.cells.ghost_name ∷ c.keeper.ghost_name ∷ [] };

    fn numbers(&self) -> &[u32] {
        self.cells
    }

    // A number stands in the lent slice only once it is kept.
    fn write(&mut self, place: usize, value: u32) -> Result<(), NotWritten> {
        if self.lasts == 0 || place >= self.cells.len() {
            return Err(NotWritten);
        }
        self.keeper.keep(place, value)?;
        self.lasts -= 1;
        self.cells[place] = value;
        self.history = self.history.then(&Write { place, value });
        Ok(())
    }
}
