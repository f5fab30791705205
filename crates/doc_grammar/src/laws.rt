ghost use Rattle.doc_grammar.specs.Laws.{OneTree, OneFault, Encoded, Sound, Complete, Judged, Cut, Ordered, Bounded};

/// What holds of documents, their faults and the machine.
pub fn document_laws()
    ensures one_tree { OneTree }
    ensures one_fault { OneFault }
    ensures encoded { Encoded }
    ensures sound { Sound }
    ensures complete { Complete }
    ensures judged { Judged }
    ensures cut { Cut }
    ensures ordered { Ordered }
    ensures bounded { Bounded }
{}
