ghost use Rattle.run_memory.specs.Laws.{ChunksCounted};

/// The chunks of a new activation and of the start are those of their variables.
pub fn chunks_counted()
    ensures { ChunksCounted }
{}
