ghost use Rattle.trace_laws.specs.Laws.{HasNoFault, IsOfParts, IsReadByRules, IsTextInPieces, IsToldInForm, KeepsItsRules};

use run_model::type_laws;
use trace_reading::texts_of_traces;

/// Laws on the traces of runs of FMUs that behave well. What a run has is in form, so that its text is that of the trace
/// that it tells (`form`), and no line of that breaks a rule (`rules`). The rules are about the components and ports of
/// a system alone (`same`). So no line of the text of a run is out of form (`fault`), and the trace that is read from it
/// keeps the rules of each system with the same components and ports (`read`). The text is what is put in pieces: the
/// header, each instant and the end line (`pieces`).
pub fn traces_keep_rules()
    ensures form { IsToldInForm }
    ensures rules { KeepsItsRules }
    ensures same { IsOfParts }
    ensures fault { HasNoFault }
    ensures read { IsReadByRules }
    ensures pieces { IsTextInPieces }
{
    texts_of_traces();
    type_laws();
}
