ghost use Rattle.system_checkpoint.specs.Spelling.{FitsFile, KeepsOne, SpellsAll, SpellsFew, SpellsOnce};

/// Laws of checkpoints: what may be held has its spelling as its checkpoint and no other bytes, a checkpoint keeps one
/// snapshot, none is a proper prefix of another, and how long they are.
pub fn checkpoint_laws()
    ensures once { SpellsOnce }
    ensures all { SpellsAll }
    ensures keeps { KeepsOne }
    ensures few { SpellsFew }
    ensures fits { FitsFile }
{}
