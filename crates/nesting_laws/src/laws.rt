ghost use Rattle.std.specs.Prelude.{◌≡◌, ◌+◌, ◌++◌, ℕ, List, None, Some, slice_get};
ghost use Rattle.doc_grammar.specs.Nodes.{Denotes, Node};
ghost use Rattle.ssd_tree.specs.declared.tree.ComponentPart.{ComponentPart};
ghost use Rattle.ssd_tree.specs.declared.tree.Setting.{Setting};
ghost use Rattle.ssd_tree.specs.declared.tree.SystemTree.{SystemTree};
ghost use Rattle.ssd_tree.specs.Named.{IsNamedTree, IsScope};
ghost use Rattle.nested_documents.specs.declared.nest.TheConstants.{OUTERMOST};
ghost use Rattle.nested_documents.specs.declared.nest.Next.{Next};
ghost use Rattle.nested_documents.specs.declared.nest.Next.TheVariants as next;
ghost use Rattle.nested_documents.specs.declared.seam.Frame.{Frame};
ghost use Rattle.nested_documents.specs.Inlining.{inlined};
ghost use Rattle.nested_documents.specs.Nest.{HoldsOnly, IsAdded, IsNext};
ghost use Rattle.nested_documents.specs.States.{Document, Gathered};
ghost use Rattle.flatten.specs.Given.{IsWholeTree};
ghost use Rattle.structure_laws.specs.Orderly.{IsOrderly};
ghost use Rattle.nesting_laws.specs.Proper.{IsProper, IsProperDocument};
ghost use Rattle.nesting_laws.specs.Says.{Says};

use flatten::whole_documents;
use ssd_tree::{one_nested, one_tree, plain_paths};
use structure_laws::{named_trees, orderly_trees};

/// Laws: where a document stands in place of a Component, Systems and Components of the whole come after what they stand
/// in, as they do in both documents; and full names of the whole are those of its Systems, as they are in both documents.
pub fn inlined_laws()
    ensures orderly { (outer inner : SystemTree) (place : ℕ) (c : ComponentPart) (f : Frame)
        (elements count : ℕ) → IsOrderly count outer → IsOrderly elements inner →
        slice_get outer.components place ≡ Some c →
        IsOrderly (count + elements) (inlined outer place c f inner elements) }
    ensures named { (outer inner : SystemTree) (place : ℕ) (c : ComponentPart) (f : Frame)
        (elements count : ℕ) (scope : List ℕ) → IsOrderly count outer → IsOrderly elements inner →
        slice_get outer.components place ≡ Some c → IsScope outer c.system scope →
        f.name ≡ scope ++ f.own_name → IsNamedTree outer → IsNamedTree inner →
        IsNamedTree (inlined outer place c f inner elements) }
{}

/// Laws: a document without violation is in order, has the full names of its Systems, and each number in it names a part; and
/// so it is of what documents say that are put together: of the outermost document, with each document more, and of all, which
/// may be flattened then.
pub fn nest_laws()
    ensures document { (bytes : List ℕ) (t : List Node) (s : Setting) (d : Document) →
        Denotes bytes t → Says s t d → IsProperDocument s d }
    ensures top { (d : Document) (g : Gathered) → HoldsOnly d g → IsProperDocument OUTERMOST d →
        IsProper g }
    ensures added { (old : Gathered) (path : List ℕ) (s : Setting) (d : Document) (new : Gathered) →
        IsNext old (next.Document path s) → IsAdded old d new → IsProper old →
        IsProperDocument s d → IsProper new }
    ensures whole { (g : Gathered) → IsProper g → IsNext g next.Nothing → g.lacking ≡ None →
        IsWholeTree g.tree }
{
    named_trees();
    orderly_trees();
    plain_paths();
    whole_documents();
}

/// Laws: what documents come to is one thing: what each says, what comes next, what the outermost document begins, and what a
/// document more makes of it.
pub fn one_nest()
    ensures said { (s : Setting) (t : List Node) (a b : Document) → Says s t a → Says s t b →
        a ≡ b }
    ensures next { (g : Gathered) (a b : Next) → IsNext g a → IsNext g b → a ≡ b }
    ensures top { (d : Document) (a b : Gathered) → HoldsOnly d a → HoldsOnly d b → a ≡ b }
    ensures added { (old : Gathered) (d : Document) (a b : Gathered) → IsAdded old d a →
        IsAdded old d b → a ≡ b }
{
    one_tree();
    one_nested();
}
