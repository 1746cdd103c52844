ghost use Rattle.cell_pool.specs.Laws.{KeepsCells};

/// A cell reads as what was last put there, or as blank if nothing was, and other cells stay as they are.
pub fn cells_kept<C: Copy>()
    ensures { KeepsCells C }
{}
