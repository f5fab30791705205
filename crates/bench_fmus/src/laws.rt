ghost use Rattle.bench_fmus.specs.Laws.{StatesReadBack};

/// A law: what a machine can have in Step Mode is read back from its bytes.
pub fn states_read_back()
    ensures { StatesReadBack }
{}
